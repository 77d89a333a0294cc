//! ALTER .. UPDATE and ALTER .. DELETE in their table.
ghost use Rattle.std.specs.Prelude.{◌≡◌, ℕ, List as Bytes, IfOk, IfErr, OnOk};
ghost use Rattle.std.specs.declared.option.Option.TheVariants.{None, Some};
ghost use Rattle.rmt_values.specs.Schemas.{IsSchema};
ghost use Rattle.rmt_values.specs.Commands.{CommandFits};
ghost use Rattle.rmt_expr.specs.Mutations.{IsCheckedMutation, mutation_refusal};
ghost use Rattle.rmt_expr.specs.Sizes.{IsSmallCommand};
ghost use Rattle.rmt_acting.specs.Acting.{GoesOn, KeepsShape};
ghost use Rattle.rmt_statements.specs.declared.act.Act.TheVariants as acts;
ghost use Rattle.rmt_play.specs.ActRefusals.{refused_command};
ghost use Rattle.rmt_play.specs.ActSteps.{ExecutesIn};

use rmt_acting::Acting;
use rmt_changes::range_of_command;
use rmt_expr::{MutationError, check_mutation};
use rmt_reply::{Line, Refusal};
use rmt_values::{CheckedMutation, Mutation, Schema};
use std::alloc::{AllocError, Global};

/// The command with columns by their places, or why it is refused.
pub(crate) fn check(
    alloc: Global,
    command: &Mutation,
    schema: &Schema,
) -> Result<Result<CheckedMutation, Refusal>, AllocError>
    ensures ok { IfOk result (λ found. IfOk found (IsCheckedMutation schema.now command.now)) }
    ensures fits { IfOk result (λ found. IfOk found (CommandFits schema.now)) }
    ensures known { IfOk result (λ found. IfOk found (λ _.
        mutation_refusal schema.now command.now ≡ None)) }
    ensures refused { IfOk result (λ found. IfErr found (λ e.
        refused_command (mutation_refusal schema.now command.now) ≡ Some e)) }
    ensures schema { IsSchema schema.now }
{
    // What holds of every schema is known here.
    let _rule = schema.partition();
    match check_mutation(alloc, command, schema) {
        Ok(checked) => Ok(Ok(checked)),
        Err(MutationError::UnknownColumn(name)) => Ok(Err(Refusal::UnknownColumn(name))),
        Err(MutationError::DoubleColumn(name)) => Ok(Err(Refusal::DoubleColumn(name))),
        Err(MutationError::WrongType(name)) => Ok(Err(Refusal::WrongType(name))),
        Err(MutationError::KeyColumn(name)) => Ok(Err(Refusal::KeyColumn(name))),
        Err(MutationError::Memory) => Err(AllocError),
    }
}

/// Makes a mutation, or refuses to.
pub(crate) fn alter_in<E: Acting>(
    alloc: Global,
    engine: &mut E,
    command: &Mutation,
) -> Result<Line, AllocError>
    requires free { (E.seen engine.old).free }
    requires small { IsSmallCommand 320 command.now }
    ensures executes { IfOk result (λ line. (table : Bytes ℕ) (r : ℕ)
        → ExecutesIn (E.seen engine.old) r (acts.Mutate table command.now) line (E.seen engine.new)) }
    ensures goes_on { OnOk result (GoesOn (E.seen engine.old) (E.seen engine.new)) }
    ensures keeps { KeepsShape (E.seen engine.old) (E.seen engine.new) }
{
    match check(alloc, command, engine.schema())? {
        Ok(checked) => {
            range_of_command(&checked);
            match engine.mutate(alloc, checked)? {
                Ok(id) => Ok(Line::Mutation(id)),
                Err(refusal) => Ok(Line::Refused(refusal)),
            }
        }
        Err(refusal) => Ok(Line::Refused(refusal)),
    }
}
