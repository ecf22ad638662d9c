// Whether bytes are a record's, and whether they are the area of a session (question 4). Each check is given the bytes from its record's first on.
ghost use Rattle.std.specs.Prelude.{◌&&◌, ◌≡◌, ◌+◌, ◌≤◌, ◌*◌, eqb, length};
ghost use Rattle.session.specs.Area.{flag, state, location, text_bytes, key_code, key_text_ok, full_key, event, info, held, pressed, wait, entry, held_field, session_ok};
ghost use Rattle.session.specs.Codec.{number, pair, list_of, get_many, ok_many};
ghost use Rattle.session.specs.Limits.{UNITS_MOST as units_most, ENTRIES_MOST as entries_most, AREA, ENTRY_SIZE as entry_size, EVENT_SIZE, HELD_FIELD_SIZE as held_field_size, HELD_SIZE, INFO_SIZE as info_size, WAIT_SIZE};
ghost use Rattle.session.specs.Session.{rising, first_open};
ghost use Rattle.questions.specs.Order.{ordered};

use session::{
    AREA_SIZE, COUNT_AT, ENTRIES_AT, ENTRIES_MOST, ENTRY_SIZE, HELD_FIELD_SIZE, INFO_SIZE,
    KEY_TEXT_MOST, OPEN_MOST, TEXT_MOST, TOKENS_MOST, UNITS_MOST,
};

// ---- texts, keys, key codes

// A text of at most so many bytes: its length, its bytes, zeros behind.
fn text_ok(s: &[u8], most: usize) -> bool
    requires { 1 + most ≤ length s.now }
    ensures { result ≡ (text_bytes most).ok s.now }
{
    let n = s[0] as usize;
    if most < n {
        return false;
    }
    if !area::scan::zero_part(s, 1 + n, 1 + most) {
        return false;
    }
    text::utf8::well_formed(&s[1..1 + n])
}

// A character has a text, and no other key.
fn key_text_ok(number: u16, len: u8) -> bool
    ensures { result ≡ key_text_ok number len }
{
    if number == 0 { 0 < len } else { len == 0 }
}

// A key: its number, what it holds beside it, its text.
fn key_ok(s: &[u8], most: usize) -> bool
    requires { 8 + most ≤ length s.now }
    ensures { result ≡ (full_key most).ok s.now }
{
    let number = area::get_u16(s, 0);
    let value = area::get_u32(s, 3);
    if !keys::key_number::key_ok(number, s[2], value) {
        return false;
    }
    if !key_text_ok(number, s[7]) {
        return false;
    }
    text_ok(&s[7..], most)
}

// A key code: the low 32 bits of its number, then the other 16.
fn code_ok(s: &[u8]) -> bool
    requires { 6 ≤ length s.now }
    ensures { result ≡ key_code.ok s.now }
{
    let low = area::get_u32(s, 0) as u64;
    let high = area::get_u16(s, 4) as u64;
    keys::key_code::code_key_ok(low + 0x1_0000_0000 * high)
}

// ---- an event

// Location, state, repeat, synthetic.
fn marks_ok(s: &[u8]) -> bool
    requires { 4 ≤ length s.now }
    ensures { result ≡ (pair location (pair state (pair flag flag))).ok s.now }
{
    if 3 < s[0] {
        return false;
    }
    if 1 < s[1] {
        return false;
    }
    if 1 < s[2] {
        return false;
    }
    s[3] < 2
}

pub fn event_ok(s: &[u8]) -> bool
    requires { EVENT_SIZE ≤ length s.now }
    ensures { result ≡ event.ok s.now }
{
    if !code_ok(s) {
        return false;
    }
    if !key_ok(&s[6..], TEXT_MOST) {
        return false;
    }
    if !text_ok(&s[62..], TEXT_MOST) {
        return false;
    }
    if !marks_ok(&s[111..]) {
        return false;
    }
    if !text_ok(&s[115..], TEXT_MOST) {
        return false;
    }
    key_ok(&s[164..], KEY_TEXT_MOST)
}

// ---- what is kept of a press or a release

fn info_ok(s: &[u8]) -> bool
    requires { info_size ≤ length s.now }
    ensures { result ≡ info.ok s.now }
{
    if 1 < s[2] {
        return false;
    }
    if 3 < s[3] {
        return false;
    }
    if !key_ok(&s[4..], KEY_TEXT_MOST) {
        return false;
    }
    key_ok(&s[36..], KEY_TEXT_MOST)
}

const UNITS_SIZE: usize = 1 + 2 * UNITS_MOST;

// The units of a held press: their number, the units, zeros behind.
fn units_ok(s: &[u8]) -> bool
    requires { 1 + 2 * units_most ≤ length s.now }
    ensures { result ≡ (list_of 1 units_most (number 2)).ok s.now }
{
    let n = s[0] as usize;
    if UNITS_MOST < n {
        return false;
    }
    area::scan::zero_part(s, 1 + 2 * n, UNITS_SIZE)
}

fn held_ok(s: &[u8]) -> bool
    requires { HELD_SIZE ≤ length s.now }
    ensures { result ≡ held.ok s.now }
{
    if !info_ok(s) {
        return false;
    }
    if 1 < s[70] {
        return false;
    }
    units_ok(&s[71..])
}

// An open press: virtual key, scan code, extended, repeat.
fn pressed_ok(s: &[u8]) -> bool
    requires { 5 ≤ length s.now }
    ensures { result ≡ pressed.ok s.now }
{
    if 1 < s[3] {
        return false;
    }
    s[4] < 2
}

// Two marks, and at most what is kept of a release.
const UNRESOLVED_SIZE: usize = 2 + INFO_SIZE;

// What the finish of an open message will need of it, zeros behind.
fn wait_ok(s: &[u8]) -> bool
    requires { 1 + WAIT_SIZE ≤ length s.now }
    ensures { result ≡ wait.ok s.now }
{
    if s[0] == 0 {
        if !pressed_ok(&s[1..]) {
            return false;
        }
        return area::scan::zero_part(s, 6, UNRESOLVED_SIZE);
    }
    if s[0] != 1 {
        return false;
    }
    if s[1] == 0 {
        return info_ok(&s[2..]);
    }
    if s[1] != 1 {
        return false;
    }
    area::scan::zero_part(s, 2, UNRESOLVED_SIZE)
}

// ---- the order of entries: tokens that rise, the first one open, the number of open ones

// Whether the tokens rise strictly and stay below the number handed out.
fn rising_ok(s: &[u8], n: usize, handed: u16) -> bool
    requires { (n ≤ entries_most) × (n * entry_size ≤ length s.now) }
    ensures { result ≡ rising 0 handed (get_many entry n s.now) }
{
    let mut lo: u32 = 0;
    for i in 0..n {
        let token = area::get_u16(s, ENTRY_SIZE * i);
        if (token as u32) < lo || handed <= token {
            return false;
        }
        lo = token as u32 + 1;
    }
    true
}

// Whether the first entry is unresolved; without an entry no token is handed out.
fn first_open(s: &[u8], n: usize, handed: u16) -> bool
    requires { (n ≤ entries_most) × (n * entry_size ≤ length s.now) }
    ensures { result ≡ first_open handed (get_many entry n s.now) }
{
    if n == 0 {
        return handed == 0;
    }
    s[2] == 0
}

fn order_ok(s: &[u8], n: usize, handed: u16) -> bool
    requires { (n ≤ entries_most) × (n * entry_size ≤ length s.now) }
    ensures { result ≡ ordered handed (get_many entry n s.now) }
{
    if !rising_ok(s, n, handed) {
        return false;
    }
    if !first_open(s, n, handed) {
        return false;
    }
    record::read::open_count(s, n) <= OPEN_MOST
}

// ---- an entry

fn entry_ok(s: &[u8]) -> bool
    requires { entry_size ≤ length s.now }
    ensures { result ≡ entry.ok s.now }
{
    if s[2] == 0 {
        if !wait_ok(&s[3..]) {
            return false;
        }
        return area::scan::zero_part(s, 73, ENTRY_SIZE);
    }
    if s[2] != 1 {
        return false;
    }
    event_ok(&s[3..])
}

// ---- the queue: n entries from the first byte on

fn entries_ok(s: &[u8], n: usize) -> bool
    requires { (n ≤ entries_most) × (n * entry_size ≤ length s.now) }
    ensures { result ≡ ok_many entry n s.now }
{
    for i in 0..n {
        if !entry_ok(&s[ENTRY_SIZE * i..]) {
            return false;
        }
    }
    true
}

// ---- the area

// Whether a press is held, and which.
fn held_field_ok(s: &[u8]) -> bool
    requires { held_field_size ≤ length s.now }
    ensures { result ≡ held_field.ok s.now }
{
    if s[0] == 0 {
        return area::scan::zero_part(s, 1, HELD_FIELD_SIZE);
    }
    if s[0] != 1 {
        return false;
    }
    held_ok(&s[1..])
}

// SCOPE 6.4: whether the bytes are the area of a session.
pub fn session_ok(session: &[u8]) -> bool
    ensures { result ≡ (eqb (length session.now) AREA && session_ok session.now) }
{
    if session.len() != AREA_SIZE {
        return false;
    }
    let handed = area::get_u16(session, 0);
    if TOKENS_MOST < handed as usize {
        return false;
    }
    if !held_field_ok(&session[2..]) {
        return false;
    }
    let n = area::get_u16(session, COUNT_AT) as usize;
    if ENTRIES_MOST < n {
        return false;
    }
    if !area::scan::zero_from(session, ENTRIES_AT + ENTRY_SIZE * n) {
        return false;
    }
    if !entries_ok(&session[ENTRIES_AT..], n) {
        return false;
    }
    order_ok(&session[ENTRIES_AT..], n, handed)
}
