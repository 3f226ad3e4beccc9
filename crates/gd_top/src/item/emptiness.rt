//! Whether a payload is that of the empty memory.

ghost use Rattle.std.specs.Prelude.{◌≡◌, true, false, length};
ghost use Rattle.gd_base.specs.Payloads.Spelled.{Shows};
ghost use Rattle.gd_base.specs.Laws.TellsViews.{TellsViews};

use gd_base::{Core, Loaded, PAYLOAD_LEN, Text, What};

/// Whether a payload spells the empty view. The core loads it for that: a view with no entry and with the text of the empty
/// state is the empty one.
pub(crate) fn is_empty<C: Core>(core: &mut C, payload: &[u8], text: &mut Text) -> bool
    requires { length payload.now ≡ PAYLOAD_LEN }
    ensures yes { result ≡ true → TellsViews (C.meaning core.old)
        → (C.meaning core.old).spelled payload.now ≡ Shows (C.meaning core.old).empty }
    ensures no { result ≡ false → (C.meaning core.old).spelled payload.now ≡ Shows (C.meaning core.old).empty → ⊥ }
    ensures same { C.meaning core.new ≡ C.meaning core.old }
{
    if core.load(payload) != Loaded::Read {
        return false;
    }
    if core.count() != 0 {
        return false;
    }
    core.show(What::State, text);
    core.clear();
    let mut empty = Text::new();
    core.show(What::State, &mut empty);
    text.as_str() == empty.as_str()
}
