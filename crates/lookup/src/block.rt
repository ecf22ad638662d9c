// The layout block: its sizes, and question 3, whether bytes are one.
ghost use Rattle.std.specs.Prelude.{true, false, ◌≡◌, ◌+◌, ◌≤◌, ◌<◌, length, drop, get_or, ℕ, MatchOption};
ghost use Rattle.area.specs.Pick.{pick};
ghost use Rattle.lookup.specs.Sizes.{BLOCK_MOST as block_most, HEAD as head_size, ENTRY_HEAD as entry_head};
ghost use Rattle.lookup.specs.Block.{len_of, list_key_ok, entry_ok, list_ok, used_of, table_ok, lists_ok, block_ok};
ghost use Rattle.lookup.specs.Maps.{len_ok, non_char_ok};

// ---- sizes: specs/Sizes says what each is

pub const BLOCK_MOST: usize = 65536;

pub const LOCK_LISTS: usize = 2;

pub const LISTS: usize = 18;

pub const VKEYS: usize = 256;

pub const SCANS_FROM: usize = 256;

pub const PAGES_FROM: usize = 512;

pub const COUNTS_AT: usize = 2;

pub const SIZES_AT: usize = 38;

pub const CELLS_AT: usize = 74;

pub const HEAD: usize = 2634;

pub const ENTRY_HEAD: usize = 16;

pub const ENTRY_TEXT_MOST: u8 = 24;

// ---- an entry of a list

#[tactic(auto, unfolding(crate::specs::Maps::len_ok))]
fn len_ok(number: u16, len: u8) -> bool
    ensures { result ≡ len_ok number len }
{
    if number != 0 {
        return len == 0;
    }
    if len == 0 {
        return false;
    }
    len <= ENTRY_TEXT_MOST
}

fn list_key_ok(by_vkey: bool, key: u64) -> bool
    ensures { result ≡ list_key_ok by_vkey key }
{
    if by_vkey {
        return key < VKEYS as u64;
    }
    keys::key_code::code_key_ok(key)
}

// The bytes of the entry at the head of l, if there is one.
#[tactic(auto, unfolding(crate::specs::Block::entry_ok))]
fn entry_len(l: &[u8], by_vkey: bool, lo: u64) -> Option<usize>
    ensures { result ≡ pick (entry_ok (list_key_ok by_vkey) lo l.now) (Some (entry_head + len_of l.now)) None }
{
    if l.len() < ENTRY_HEAD {
        return None;
    }
    let key = area::get_u64(l, 0);
    if key < lo {
        return None;
    }
    if !list_key_ok(by_vkey, key) {
        return None;
    }
    let number = area::get_u16(l, 8);
    let value = area::get_u32(l, 12);
    if !keys::key_number::key_ok(number, l[10], value) {
        return None;
    }
    if !len_ok(number, l[11]) {
        return None;
    }
    let n = usize::from(l[11]);
    if l.len() - ENTRY_HEAD < n {
        return None;
    }
    let e = ENTRY_HEAD + n;
    if !text::utf8::well_formed(&l[ENTRY_HEAD..e]) {
        return None;
    }
    Some(e)
}

// ---- the block

// Where n entries from start on end, if they are entries.
fn list_end(block: &[u8], by_vkey: bool, n: u16, start: usize) -> Option<usize>
    requires { (start ≤ length block.now) × (length block.now ≤ block_most) }
    ensures { result ≡ pick (list_ok (list_key_ok by_vkey) n 0 (drop start block.now)) (Some (start + used_of n (drop start block.now))) None }
{
    let mut at = start;
    let mut lo: u64 = 0;
    for _ in 0..n {
        let len = entry_len(&block[at..], by_vkey, lo)?;
        lo = area::get_u64(&block[at..], 0) + 1;
        at += len;
    }
    Some(at)
}

fn non_char_ok(n: u16) -> bool
    ensures { result ≡ non_char_ok n }
{
    n == 0 || keys::key_number::named_ok(n)
}

#[tactic(auto, unfolding(crate::specs::Block::table_ok))]
fn table_ok(block: &[u8]) -> bool
    requires { head_size ≤ length block.now }
    ensures { result ≡ table_ok block.now }
{
    for i in 0..VKEYS {
        if !non_char_ok(area::get_u16(block, CELLS_AT + 2 * i)) {
            return false;
        }
    }
    true
}

#[tactic(auto, unfolding(crate::specs::Block::lists_ok))]
fn lists_ok(block: &[u8]) -> bool
    requires { (head_size ≤ length block.now) × (length block.now ≤ block_most) }
    ensures { result ≡ lists_ok block.now }
{
    let mut at = HEAD;
    for j in 0..LISTS {
        let n = area::get_u16(block, COUNTS_AT + 2 * j);
        let size = usize::from(area::get_u16(block, SIZES_AT + 2 * j));
        if list_end(block, j < LOCK_LISTS, n, at) != Some(at + size) {
            return false;
        }
        at += size;
    }
    at == block.len()
}

// SCOPE 6.3: whether the bytes are a layout block.
#[tactic(auto, unfolding(crate::specs::Block::block_ok))]
pub fn block_ok(block: &[u8]) -> bool
    ensures { result ≡ block_ok block.now }
{
    (HEAD..=BLOCK_MOST).contains(&block.len())
        && block[0] <= 1
        && block[1] == 0
        && table_ok(block)
        && lists_ok(block)
}

// A layout block, which passed question 3. Its bytes are below 256, which a proof reads from no slice inside a struct: the last ghost field says so.
#[derive(Clone, Copy)]
pub struct Layout<'a> {
    pub bytes: &'a [u8],
    ghost whole: { block_ok bytes.now ≡ true },
    ghost bytewise: { (i : ℕ) → get_or bytes.now i 0 < 256 },
}

impl<'a> Layout<'a> {
    // The layout block that the bytes are, if they are one.
    pub fn new(bytes: &'a [u8]) -> Option<Self>
        ensures { MatchOption result (block_ok bytes.now ≡ false) (λ layout. layout.bytes.now ≡ bytes.now) }
    {
        if !block_ok(bytes) {
            return None;
        }
        Some(Self { bytes })
    }
}
