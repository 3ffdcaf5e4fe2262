//! What a line meets while only some commands are built.
ghost use Rattle.std.specs.Prelude.{◌≡◌};
ghost use Rattle.nova_building.specs.Building.{built_met, is_built as is_built_command, told_while_building};

use nova_script::{Command, Context, Refusal, Request, read_command, request_for};

/// Whether the command is built.
fn is_built(command: &Command) -> bool
    ensures { result ≡ is_built_command command.now }
{
    matches!(
        command,
        Command::Load(_)
            | Command::Tick(_)
            | Command::Run(_)
            | Command::Begin(_)
            | Command::Drop(_)
            | Command::Show(_)
    )
}

/// A refusal of a line's words, as long as not all commands are built.
fn told(refusal: Refusal) -> Refusal
    ensures { result ≡ told_while_building refusal }
{
    match refusal {
        Refusal::LineTooLong => Refusal::LineTooLong,
        _ => Refusal::NotBuilt,
    }
}

/// What a line asks for, or why it is refused; None for a line without words.
pub fn met<C: Context>(context: &C, line: &[u8]) -> Option<Result<Request, Refusal>>
    ensures { result ≡ built_met (C.around context.now) line.now }
{
    match read_command(line) {
        Ok(None) => None,
        Ok(Some(command)) if is_built(&command) => Some(request_for(context, &command)),
        Ok(Some(_)) => Some(Err(Refusal::NotBuilt)),
        Err(refusal) => Some(Err(told(refusal))),
    }
}
