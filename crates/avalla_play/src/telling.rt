//! Where a play ends by a stop.
ghost use Rattle.std.specs.Prelude.{◌≡◌, ◌≤◌, ◌++◌, All, IfOk, Some, length};
ghost use Rattle.asm_io.specs.Writes.{Writes};
ghost use Rattle.asm_node.specs.Model.{machine_of};
ghost use Rattle.asm_node.specs.Step.{broken};
ghost use Rattle.asm_run.specs.declared.error.OutError.TheVariants.{Write};
ghost use Rattle.asm_run.specs.Printed.{numbered_state};
ghost use Rattle.asm_text.specs.Texts.{AreShort, stop_line};
ghost use Rattle.avalla_play.specs.Standing.{end_at, told};

use crate::context::Context;
use crate::playing::Played;
use crate::stage::Stage;
use asm_io::Sink;
use asm_node::Stop;
use asm_run::{OutError, print_state, print_stop};

/// Prints the line of a stop, by which the play ends.
pub fn stop_by<K: Sink>(
    context: &Context<'_>,
    stop: Stop,
    sink: &mut K,
) -> Result<Option<Played>, OutError>
    requires { AreShort context.now.sources.now }
    ensures writes { Writes K.written K.faults sink.old sink.new (stop_line (machine_of context.now.model.now).signature context.now.sources.now stop) Write result }
    ensures end { IfOk result (λ end. end ≡ Some (Played.Stopped stop)) }
{
    print_stop(
        context.alloc,
        context.model.signature(),
        context.sources,
        stop,
        sink,
    )?;
    Ok(Some(Played::Stopped(stop)))
}

/// Prints the present state with its number. The play ends there where an invariant is false.
pub fn tell_state<K: Sink>(
    context: &Context<'_>,
    stage: &Stage<'_>,
    sink: &mut K,
) -> Result<Option<Played>, OutError>
    requires machine { stage.now.session.machine ≡ machine_of context.now.model.now }
    requires short { AreShort context.now.sources.now }
    ensures writes { Writes K.written K.faults sink.old sink.new (numbered_state (machine_of context.now.model.now) stage.now.number stage.now.session.state ++ told (machine_of context.now.model.now) context.now.sources.now (broken (machine_of context.now.model.now) stage.now.session.state)) Write result }
    ensures end { IfOk result (λ end. end ≡ end_at (broken (machine_of context.now.model.now) stage.now.session.state)) }
    ensures stopped { IfOk result (λ _. stage.now.session.stopped ≡ broken (machine_of context.now.model.now) stage.now.session.state) }
{
    print_state(context.alloc, &stage.session, stage.number, sink)?;
    match stage.session.stopped() {
        Some(number) => stop_by(context, Stop::Invariant(number), sink),
        None => Ok(None),
    }
}
