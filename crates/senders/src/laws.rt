//! What holds of the definitions.

ghost use Rattle.std.specs.Prelude.{◌++◌, ℕ, List, Option};
ghost use Rattle.sl_base.specs.declared.addr.Addr.{Addr};
ghost use Rattle.sl_commands.specs.declared.command.Command.{Command};
ghost use Rattle.osc_reader.specs.declared.message.Message.{Message};
ghost use Rattle.osc_paths.specs.declared.request.Request.TheVariants.{Play};
ghost use Rattle.osc_paths.specs.declared.request.ReturnTo.{ReturnTo};
ghost use Rattle.osc_paths.specs.Requests.{IsRequest};
ghost use Rattle.senders.specs.declared.decision.Decision.{Decision};
ghost use Rattle.senders.specs.Commands.{accepted, IsGood};
ghost use Rattle.senders.specs.Tallies.{TallyOf};
ghost use Rattle.senders.specs.Hearing.{Input, Hears};

/// A command that a message asks for is allowed for the loops and no release, and it has an address
/// to answer to exactly where it has a reply.
pub fn what_is_asked_for_may_be_sent()
    ensures { (loops : ℕ) (from : Addr) (message : Message) (command : Command)
        (answer : Option ReturnTo) → IsRequest loops from message (Play command answer) →
        IsGood 0 loops (accepted command answer) }
{}

/// What is heard in two parts is heard as a whole.
pub fn what_is_heard_in_parts_is_heard()
    ensures { (capacity : ℕ) (first second : List Input) (old mid new : TallyOf)
        (decided others : List Decision) → Hears capacity first old mid decided →
        Hears capacity second mid new others →
        Hears capacity (first ++ second) old new (decided ++ others) }
{}
