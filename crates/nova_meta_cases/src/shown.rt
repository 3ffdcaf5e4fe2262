//! A catalog in print.
ghost use Rattle.std.specs.Prelude.{◌<◌, length};

use nova_meta::Catalog;
use std::io;

fn show_channel(rt: &HostRuntime, catalog: &Catalog, channel: u32) -> io::Result<()>
    requires { channel < length catalog.now.channels }
{
    let version = catalog.version(channel);
    println!(rt; "channel {channel}: version {version}")?;
    for interval in catalog.intervals(channel) {
        println!(rt;
            "  {} to {} in block {}, {} bytes",
            interval.from, interval.to, interval.block, interval.size
        )?;
    }
    Ok(())
}

fn show_task(rt: &HostRuntime, catalog: &Catalog, task: u32) -> io::Result<()>
    requires { task < length catalog.now.tasks }
{
    let runs = catalog.runs(task);
    println!(rt; "task {task}: run count {runs}")?;
    if let Some(run) = catalog.last(task) {
        for version in run.versions.as_slice() {
            println!(rt; "  saw version {version}")?;
        }
        println!(rt; "  at moment {}, seen {}", run.moment, run.seen)?;
    }
    for part in 0..17 {
        if let Some((block, size)) = catalog.state_part(task, part) {
            println!(rt; "  part {part} in block {block}, {size} bytes")?;
        }
    }
    Ok(())
}

/// Prints what a catalog holds.
pub fn show(rt: &HostRuntime, catalog: &Catalog) -> io::Result<()> {
    for channel in 0..catalog.channel_count() {
        show_channel(rt, catalog, channel)?;
    }
    for task in 0..catalog.task_count() {
        show_task(rt, catalog, task)?;
    }
    let moment = catalog.moment();
    let next = catalog.next_block();
    println!(rt; "moment {moment}, next block {next}")
}
