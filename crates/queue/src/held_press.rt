// The held press of a session's area: set, with units added, forgotten.
ghost use Rattle.std.specs.Prelude.{true, List, [], ◌≡◌, ℕ, ◌+◌, ◌≤◌, ◌<◌, get_or, length, Some, None};
ghost use Rattle.area.specs.Splice.{splice};
ghost use Rattle.text.specs.Message.{char_units};
ghost use Rattle.session.specs.Area.{encode, decode};
ghost use Rattle.session.specs.Builder.{with_units};
ghost use Rattle.session.specs.InBlock.{info_in, InfoIn};
ghost use Rattle.session.specs.Limits.{AREA, ENTRIES_AT, UNITS_MOST};
ghost use Rattle.session.specs.Questions.{is_held};
ghost use Rattle.session.specs.Session.{held_fits};
ghost use Rattle.queue.specs.Changed.{holding};
ghost use Rattle.queue.specs.Completing.{held_in};
ghost use Rattle.queue.specs.Room.{IsArea};

use session::{HELD_AT, HELD_FIELD_AT, PartialKeyEventInfo};

// A press is held, with no units yet.
pub fn set_held(session: &mut [u8], block: &[u8], n: PartialKeyEventInfo, vkey: u16, mark: bool)
    requires { IsArea session.old × InfoIn block.now n × (held_fits (Some (record { info = info_in block.now n; vkey = vkey; mark = mark; units = [] })) ≡ true) }
    ensures { session.new ≡ encode (holding (decode session.old) (Some (record { info = info_in block.now n; vkey = vkey; mark = mark; units = [] }))) }
{
    record::layout::put_held(session, HELD_FIELD_AT, block, n, vkey, mark);
}

// SCOPE 3.9: the units of a character message added to the press that is held.
pub fn add_units(session: &mut [u8], wparam: u64)
    requires { IsArea session.old × (is_held (decode session.old).held ≡ true) × (length (held_in session.old).units + length (char_units wparam) ≤ UNITS_MOST) }
    ensures { session.new ≡ encode (holding (decode session.old) (Some (with_units (held_in session.old) (char_units wparam)))) }
{
    record::complete::add_units(session, HELD_AT, wparam);
}

// No press is held any more. Behind the held press the area need not be a session's: an event may stand there that no entry counts yet.
pub fn forget_held(session: &mut [u8])
    requires { length session.old ≡ AREA }
    ensures { (x : List ℕ) (at : ℕ) (b : List ℕ) → ((i : ℕ) → get_or x i 0 < 256) → IsArea x → ENTRIES_AT ≤ at → session.old ≡ splice at b x → session.new ≡ splice at b (encode (holding (decode x) None)) }
{
    record::write::put_no_held(session, HELD_FIELD_AT);
}
