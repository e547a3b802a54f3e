//! What holds of the definitions.

ghost use Rattle.std.specs.Prelude.{◌≡◌, ◌++◌, ℕ, List, Option, Some, true, slice_get};
ghost use Rattle.sl_commands.specs.declared.command.Command.{Command};
ghost use Rattle.sl_commands.specs.declared.reply.Reply.{Reply};
ghost use Rattle.osc_paths.specs.declared.request.ReturnTo.{ReturnTo};
ghost use Rattle.live_ports.specs.Links.{Packet};
ghost use Rattle.senders.specs.declared.accepted.Accepted.{Accepted};
ghost use Rattle.senders.specs.Commands.{AreGood, asks, commands_in};
ghost use Rattle.reply_sending.specs.Answers.{return_for};
ghost use Rattle.reply_sending.specs.Sending.{Post, Sending};

/// A reply to an accepted command of OSC that asked for one has a return address.
pub fn what_asked_has_an_address()
    ensures { (loops : ℕ) (accepted : List Accepted) (reply : Reply) (command : Command) →
        AreGood 0 loops accepted → reply.sender ≡ 0 →
        slice_get (commands_in accepted) reply.seq ≡ Some command → asks command ≡ true →
        (to : ReturnTo) × (return_for accepted reply ≡ Some to) }
{}

/// What is sent in two parts is sent as a whole.
pub fn what_is_sent_in_parts_is_sent()
    ensures { (replies others pongs more : List Packet) (old mid new : Post) →
        Sending replies pongs old mid → Sending others more mid new →
        Sending (replies ++ others) (pongs ++ more) old new }
{}
