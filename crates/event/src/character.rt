// What completes a held press at its last character: where its text stands, and what its logical key is.
ghost use Rattle.std.specs.Prelude.{true, not, ◌&&◌, List, ◌≡◌, ℕ, ◌+◌, ◌≤◌, length, take, get_or, Option};
ghost use Rattle.area.specs.Pick.{pick};
ghost use Rattle.segmentation.specs.Layout.{table_of};
ghost use Rattle.session.specs.Area.{opt_text};
ghost use Rattle.session.specs.Builder.{last_text, typed_key, several_text};
ghost use Rattle.session.specs.Event.{Info, Held};
ghost use Rattle.session.specs.InBlock.{last_in, LastFits, last_key};
ghost use Rattle.session.specs.Limits.{TEXT_MOST};
ghost use Rattle.session.specs.Session.{opt_text_fits};
ghost use Rattle.event.specs.Written.{keyboard_at};

use crate::keyboard::Keyboard;
use lookup::keyboard_layout::WindowsModifiers;
use segmentation::break_table::BreakTable;
use session::{LastKey, LastText};

// ---- the text

// SCOPE 3.11: whether Control counts at the last character, on AltGr layouts only without Alt.
fn control_counts(alt_graph: bool, mods: WindowsModifiers) -> bool
    ensures { result ≡ pick alt_graph (mods.control && not mods.alt) mods.control }
{
    mods.control && !(alt_graph && mods.alt)
}

// SCOPE 3.11: the text at the last character, by where it stands: in the layout where Control counts, else in the typed units.
pub fn last_text(keyboard: Keyboard<'_>, vkey: u16, scancode: u16) -> LastText
    ensures { ((h : Held) → h.vkey ≡ vkey → h.info.scancode ≡ scancode → last_in keyboard.entry.layout.bytes.now h.units result ≡ last_text (keyboard_at keyboard.entry.state.now keyboard.entry.layout.bytes.now) h) × LastFits keyboard.entry.layout.bytes.now result }
{
    let Keyboard { state, layout } = keyboard;
    let mods = WindowsModifiers::active_modifiers(state);
    let alt_graph = layout.has_alt_graph();
    if control_counts(alt_graph, mods) {
        let shown = mods.remove_only_ctrl();
        let num_lock = lookup::keyboard_layout::num_lock_on(state);
        let k = crate::partial::layout_key(layout, shown, num_lock, vkey, scancode);
        let key = k.key;
        let text = keys::key_number::to_text(key);
        return LastText::Layout(k, text);
    }
    LastText::Typed
}

// ---- the logical key

// SCOPE 3.6, 3.13: the logical key, by the text as it stands in its field: length, bytes, zeros behind.
pub fn last_key(table: BreakTable<'_>, mark: bool, field: &[u8]) -> LastKey
    requires { (TEXT_MOST + 1 ≤ length field.now) × (get_or field.now 0 0 ≤ TEXT_MOST) }
    ensures { (t : Option (List ℕ)) → opt_text_fits t ≡ true → take (TEXT_MOST + 1) field.now ≡ opt_text.put t → (n : Info) → last_key result n t ≡ pick mark (typed_key (several_text (table_of table.entry.bytes.now) t) n.logical_key n.scancode t) n.logical_key }
{
    if !mark {
        return LastKey::Held;
    }
    let n = field[0] as usize;
    if n == 0 {
        return LastKey::Unidentified;
    }
    let several = segmentation::several_pieces(table, &field[1..1 + n]);
    if several {
        return LastKey::Held;
    }
    LastKey::Text
}
