//! Laws of the format. These functions do nothing: their contracts hold of every command.

ghost use Rattle.std.specs.Prelude.{◌≡◌, ◌↔◌, IsTrue, None};
ghost use Rattle.ioctl_codec.specs.Structures.{structure_of, is_spellable};
ghost use Rattle.ioctl_codec.specs.Spelling.{Spells, HasSpelling, FitsFields, canonical};
ghost use Rattle.ioctl_codec.specs.Refusals.{refusal};
ghost use Rattle.ioctl_codec.specs.declared.command.Command.{Command};

use std::alloc::Allocator;

/// The commands that `encode` takes are those that some bytes spell.
pub fn spellable_commands<A: Allocator>()
    ensures { (c : Command A) → FitsFields c → IsTrue (is_spellable c) ↔ HasSpelling c }
{}

/// Decoding the canonical spelling of a command gives that command: the spelling spells it, so it is
/// what `decode` answers, and nothing refuses it.
pub fn round_trip<A: Allocator>()
    ensures spelled { (c : Command A) → FitsFields c → IsTrue (is_spellable c)
        → Spells (structure_of c).number (canonical c) c }
    ensures accepted { (c : Command A) → FitsFields c → IsTrue (is_spellable c)
        → refusal (structure_of c).number (canonical c) ≡ None }
{}
