//! What a workflow's text is refused for.
ghost use Rattle.nova_runner.specs.Texts.{TextsAreSettled};

use nova_admit::AdmitFault;
use nova_flow::FlowFault;

/// Why a text says no workflow. Want of memory is never the reason: `FlowFault::NoMemory` and
/// `AdmitFault::NoMemory` don't come here.
#[derive(Debug, Drop)]
pub enum TextFault {
    /// It reads as no workflow.
    Flow(FlowFault),
    /// A task of the workflow that it reads as isn't admitted.
    Admit(AdmitFault),
}

/// A text says at most one workflow, or has at most one first fault, and never both.
pub fn texts_are_settled()
    ensures { TextsAreSettled }
{}
