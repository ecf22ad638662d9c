// The entries of tao's PendingEventQueue in a session's area: added, found by their token, completed, dropped.
ghost use Rattle.std.specs.Prelude.{true, List, ◌≡◌, ℕ, ◌+◌, ◌*◌, ◌≤◌, ◌<◌, get_or, length, Some, None};
ghost use Rattle.area.specs.Bytes.{le};
ghost use Rattle.area.specs.Splice.{splice};
ghost use Rattle.session.specs.Area.{event, encode, decode};
ghost use Rattle.session.specs.Calls.{opening};
ghost use Rattle.session.specs.Event.{Event};
ghost use Rattle.session.specs.InBlock.{info_in, InfoIn, event_in, EventIn};
ghost use Rattle.session.specs.Limits.{AREA, ENTRIES_MOST, TOKENS_MOST, COUNT_AT as count_at, ENTRIES_AT as entries_at, ENTRY_SIZE as entry_size};
ghost use Rattle.session.specs.Questions.{last_token, is_token};
ghost use Rattle.session.specs.Session.{press, release, character, info_fits, event_fits, open_count};
ghost use Rattle.queue.specs.Changed.{with_event, with_resolved, emptied};
ghost use Rattle.queue.specs.Place.{place_of_token, StandsAt};
ghost use Rattle.queue.specs.Room.{HasRoom, IsArea};
ghost use Rattle.queue.specs.Stands.{event_place};

use lookup::keyboard::KeyLParam;
use record::read::Header;
use session::{
    COUNT_AT, ENTRIES_AT, ENTRY_EVENT_AT, ENTRY_SIZE, KeyEvent, PartialKeyEventInfo,
    PendingMessageToken,
};

// ---- behind the last entry

// Where the entry behind the last one goes.
fn next_place(h: Header) -> usize
    requires { h.count < ENTRIES_MOST }
    ensures { result ≡ entries_at + entry_size * h.count }
{
    ENTRIES_AT + ENTRY_SIZE * h.count as usize
}

// One entry more, and one token more handed out.
fn count_one(session: &mut [u8], h: Header)
    requires { (entries_at ≤ length session.old) × (h.count < ENTRIES_MOST) × (h.handed < TOKENS_MOST) }
    ensures { session.new ≡ splice 0 (le 2 (h.handed + 1)) (splice count_at (le 2 (h.count + 1)) session.old) }
{
    area::put_u16(session, COUNT_AT, h.count + 1);
    area::put_u16(session, 0, h.handed + 1);
}

// ---- open messages added (add_pending)

// An open press behind the last entry. Three functions and not one with a writer as a closure: its clause would be longer than what they share.
pub fn add_press(session: &mut [u8], vkey: u16, l: KeyLParam) -> PendingMessageToken
    requires { HasRoom session.old }
    ensures { (result.0 ≡ (decode session.old).handed) × (session.new ≡ encode (opening (decode session.old) (press vkey l) (decode session.old).held).after) }
{
    let h = record::read::header_at(session);
    let token = PendingMessageToken(h.handed as u32);
    record::write::put_press(session, next_place(h), token, vkey, l);
    count_one(session, h);
    token
}

// An open release behind the last entry.
pub fn add_release(session: &mut [u8], block: &[u8], n: PartialKeyEventInfo) -> PendingMessageToken
    requires { HasRoom session.old × InfoIn block.now n × (info_fits (info_in block.now n) ≡ true) }
    ensures { (result.0 ≡ (decode session.old).handed) × (session.new ≡ encode (opening (decode session.old) (release (info_in block.now n)) (decode session.old).held).after) }
{
    let h = record::read::header_at(session);
    let token = PendingMessageToken(h.handed as u32);
    record::layout::put_release(session, next_place(h), token, block, n);
    count_one(session, h);
    token
}

// An open character behind the last entry.
pub fn add_character(session: &mut [u8]) -> PendingMessageToken
    requires { HasRoom session.old }
    ensures { (result.0 ≡ (decode session.old).handed) × (session.new ≡ encode (opening (decode session.old) character (decode session.old).held).after) }
{
    let h = record::read::header_at(session);
    let token = PendingMessageToken(h.handed as u32);
    record::write::put_character(session, next_place(h), token);
    count_one(session, h);
    token
}

// ---- a completed event added (complete_multi)

// Where an event behind the last entry goes.
pub fn next_event(h: Header) -> usize
    requires { h.count < ENTRIES_MOST }
    ensures { result ≡ event_place h.count }
{
    next_place(h) + ENTRY_EVENT_AT
}

// A completed entry behind the last one, under a token of its own that nobody is given. Its event stands there already.
pub fn add_complete(session: &mut [u8], h: Header)
    requires { (length session.old ≡ AREA) × (h.count < ENTRIES_MOST) × (h.handed < TOKENS_MOST) }
    ensures { (x : List ℕ) (e : Event) → ((i : ℕ) → get_or x i 0 < 256) → HasRoom x → event_fits e ≡ true → h.handed ≡ (decode x).handed → h.count ≡ length (decode x).entries → session.old ≡ splice (event_place h.count) (event.put e) x → session.new ≡ encode (with_event (decode x) e) }
{
    let token = PendingMessageToken(h.handed as u32);
    record::write::put_completed(session, next_place(h), token);
    count_one(session, h);
}

// A completed entry behind the last one, with an event of the layout.
pub fn add_event(session: &mut [u8], block: &[u8], e: KeyEvent)
    requires { HasRoom session.old × EventIn block.now e × (event_fits (event_in block.now e) ≡ true) }
    ensures { session.new ≡ encode (with_event (decode session.old) (event_in block.now e)) }
{
    let h = record::read::header_at(session);
    record::layout::put_event(session, next_event(h), block, e);
    add_complete(session, h);
}

// ---- open messages found and counted

// SCOPE 4.1, 10.4: where the first entry that carries the token stands.
pub fn find(session: &[u8], token: PendingMessageToken) -> Option<usize>
    requires { IsArea session.now }
    ensures found { (place : ℕ) → result ≡ Some place → StandsAt session.now token.0 place }
    ensures missing { result ≡ None → length (decode session.now).entries ≤ place_of_token token.0 (decode session.now).entries }
{
    let h = record::read::header_at(session);
    let n = h.count as usize;
    let mut i: usize = 0;
    // SCOPE 10.4 names this form, which yields the place by `break`
    let place = loop {
        if n <= i {
            break None;
        }
        let carried = record::read::token_at(&session[ENTRIES_AT + ENTRY_SIZE * i..]);
        if carried.0 == token.0 {
            break Some(i); // carried here
        }
        i += 1;
    };
    place
}

// SCOPE 6.10: whether the token is that of the latest open message.
pub fn is_latest(session: &[u8], token: PendingMessageToken) -> bool
    requires { IsArea session.now }
    ensures { result ≡ is_token token.0 (last_token (decode session.now).entries) }
{
    let h = record::read::header_at(session);
    let mut latest = false;
    for i in 0..h.count as usize {
        let at = ENTRIES_AT + ENTRY_SIZE * i;
        if session[at + 2] == 0 {
            latest = token.0 == area::get_u16(session, at) as u32;
        }
    }
    latest
}

// How many messages are open.
pub fn open_count(session: &[u8]) -> usize
    requires { IsArea session.now }
    ensures { result ≡ open_count (decode session.now).entries }
{
    let h = record::read::header_at(session);
    record::read::open_count(&session[ENTRIES_AT..], h.count as usize)
}

// ---- an entry completed or dropped; the queue emptied

// The entry at a place, which carries the token, is complete: its event stands in it already.
pub(crate) fn complete(session: &mut [u8], place: usize, token: PendingMessageToken)
    requires { (length session.old ≡ AREA) × (place < ENTRIES_MOST) × (token.0 < 65536) }
    ensures { (x : List ℕ) (e : Event) → ((i : ℕ) → get_or x i 0 < 256) → StandsAt x token.0 place → event_fits e ≡ true → session.old ≡ splice (event_place place) (event.put e) x → session.new ≡ encode (with_resolved (decode x) token.0 (Some e)) }
{
    record::write::put_completed(session, ENTRIES_AT + ENTRY_SIZE * place, token);
}

// The entry at a place, which carries the token, dropped.
pub(crate) fn remove(session: &mut [u8], place: usize, token: PendingMessageToken)
    requires { StandsAt session.old token.0 place }
    ensures { session.new ≡ encode (with_resolved (decode session.old) token.0 None) }
{
    let h = record::read::header_at(session);
    let last = h.count as usize - 1;
    area::span::move_down(
        session,
        ENTRIES_AT + ENTRY_SIZE * place,
        ENTRY_SIZE,
        ENTRY_SIZE * (last - place),
    );
    area::span::put_zeros(session, ENTRIES_AT + ENTRY_SIZE * last, ENTRY_SIZE);
    area::put_u16(session, COUNT_AT, h.count - 1);
}

// SCOPE 4.5: no entry, and no token handed out.
pub(crate) fn restart(session: &mut [u8])
    requires { IsArea session.old }
    ensures { session.new ≡ encode (emptied (decode session.old)) }
{
    area::span::fill_zero(session, COUNT_AT);
    area::put_u16(session, 0, 0);
}
