// tao's keyboard_layout.rs over the lent layout block: the modifiers of a key state, the layout's tables, get_key and a key's text.
ghost use Rattle.std.specs.Prelude.{true, ◌≡◌, ◌≤◌, ◌<◌, ◌+◌, length, drop};
ghost use Rattle.area.specs.Pick.{pick};
ghost use Rattle.lookup.specs.Sizes.{BLOCK_MOST, MODIFIER_SETS, LISTS, CELLS, HEAD as head_size, ENTRY_HEAD as entry_head};
ghost use Rattle.lookup.specs.Block.{cell_at, maps_of, list_key_ok, list_ok, start_of, nonzero, place_of, place_in_list, place_for};
ghost use Rattle.lookup.specs.Layout.{non_char_key, scan_code_for, vkey_for, get_key, part_of, key_in, bare, found_at};
ghost use Rattle.lookup.specs.Modifiers.{down, toggled, any_down, active_modifiers, num_lock_on, caps_lock_on, remove_only_ctrl, bits_of};

use crate::block::{
    CELLS_AT, COUNTS_AT, ENTRY_HEAD, HEAD, LOCK_LISTS, Layout, PAGES_FROM, SCANS_FROM, SIZES_AT,
    VKEYS,
};
use keys::key_code::KeyCode;
use keys::{Key, NativeKeyCode};

// ---- key state and modifiers

#[derive(Clone, Copy, PartialEq, Eq, Debug)]
pub struct WindowsModifiers {
    pub shift: bool,
    pub control: bool,
    pub alt: bool,
    pub caps_lock: bool,
}

// Whether a key is down; one past the key state is not.
#[tactic(auto, unfolding(crate::specs::Modifiers::down))]
pub fn is_down(state: &[u8], vk: usize) -> bool
    ensures { result ≡ down state.now vk }
{
    vk < state.len() && state[vk] / 128 % 2 == 1
}

#[tactic(auto, unfolding(crate::specs::Modifiers::toggled))]
fn is_toggled(state: &[u8], vk: usize) -> bool
    ensures { result ≡ toggled state.now vk }
{
    vk < state.len() && state[vk] % 2 == 1
}

#[tactic(auto, unfolding(crate::specs::Modifiers::any_down))]
fn any_down(state: &[u8], key: usize, left: usize, right: usize) -> bool
    ensures { result ≡ any_down state.now key left right }
{
    is_down(state, key) || is_down(state, left) || is_down(state, right)
}

#[tactic(auto, unfolding(crate::specs::Modifiers::num_lock_on))]
pub fn num_lock_on(state: &[u8]) -> bool
    ensures { result ≡ num_lock_on state.now }
{
    is_toggled(state, 0x90)
}

#[tactic(auto, unfolding(crate::specs::Modifiers::caps_lock_on))]
pub fn caps_lock_on(state: &[u8]) -> bool
    ensures { result ≡ caps_lock_on state.now }
{
    is_toggled(state, 0x14)
}

impl WindowsModifiers {
    #[tactic(auto, unfolding(crate::specs::Modifiers::active_modifiers))]
    pub fn active_modifiers(state: &[u8]) -> Self
        ensures { result ≡ active_modifiers state.now }
    {
        Self {
            shift: any_down(state, 0x10, 0xA0, 0xA1),
            control: any_down(state, 0x11, 0xA2, 0xA3),
            alt: any_down(state, 0x12, 0xA4, 0xA5),
            caps_lock: caps_lock_on(state),
        }
    }

    #[tactic(auto, unfolding(crate::specs::Modifiers::remove_only_ctrl))]
    pub fn remove_only_ctrl(self) -> Self
        ensures { result ≡ remove_only_ctrl self }
    {
        if self.alt {
            return self;
        }
        Self {
            control: false,
            ..self
        }
    }

    // The set as a number: Shift 1, Control 2, Alt 4, Caps Lock 8.
    #[tactic(auto, unfolding(crate::specs::Modifiers::bits_of))]
    fn bits(self) -> usize
        ensures value { result ≡ bits_of self }
        ensures below { result < MODIFIER_SETS }
    {
        usize::from(self.shift)
            + 2 * usize::from(self.control)
            + 4 * usize::from(self.alt)
            + 8 * usize::from(self.caps_lock)
    }
}

// ---- what a layout answers

// A key of the layout. The text of a character is the part of the block from start, len bytes long: SCOPE 10.1 hands it out by key_text, and
// key_in, which says what such a key means, is over any block.
#[derive(Clone, Copy, PartialEq, Eq, Debug)]
pub struct LayoutKey {
    pub key: Key,
    pub start: usize,
    pub len: usize,
}

impl LayoutKey {
    // A key without a text.
    #[tactic(auto, unfolding(crate::specs::Layout::bare))]
    fn bare(key: Key) -> Self
        ensures { result ≡ bare key }
    {
        Self {
            key,
            start: 0,
            len: 0,
        }
    }
}

// ---- its tables

fn cell(block: &[u8], i: usize) -> u16
    requires { (head_size ≤ length block.now) × (i < CELLS) }
    ensures { result ≡ cell_at block.now i }
{
    area::get_u16(block, CELLS_AT + 2 * i)
}

impl Layout<'_> {
    #[tactic(auto, using(crate::proofs::block::Passed::headed), unfolding(crate::specs::Block::maps_of))]
    pub fn has_alt_graph(self) -> bool
        ensures { result ≡ (maps_of self.entry.bytes.now).has_alt_graph }
    {
        self.bytes[0] == 1
    }

    // MapVirtualKeyExW with MAPVK_VK_TO_VSC_EX.
    #[tactic(auto, using(crate::proofs::block::Passed::headed, crate::proofs::block::Read::scan_at, crate::proofs::block::Read::scan_past), unfolding(crate::specs::Layout::scan_code_for))]
    pub fn scancode_for(self, vkey: u16) -> u16
        ensures { result ≡ scan_code_for (maps_of self.entry.bytes.now) vkey }
    {
        let i = usize::from(vkey);
        if VKEYS <= i {
            return 0;
        }
        cell(self.bytes, SCANS_FROM + i)
    }

    // MapVirtualKeyExW with MAPVK_VSC_TO_VK_EX.
    #[tactic(auto, using(crate::proofs::block::Passed::headed, crate::proofs::block::Read::vkey_at), unfolding(crate::specs::Layout::vkey_for))]
    pub fn vkey_for(self, scancode: u16) -> u16
        ensures { result ≡ vkey_for (maps_of self.entry.bytes.now) scancode }
    {
        let i = usize::from(scancode);
        if i < 0x100 {
            return cell(self.bytes, PAGES_FROM + i);
        }
        if i < 0xE000 {
            return 0;
        }
        if i < 0xE200 {
            return cell(self.bytes, PAGES_FROM + (i - 0xE000 + 0x100));
        }
        0
    }

    // The non-character key of a virtual key, if it has one.
    #[tactic(auto, using(crate::proofs::block::Passed::headed, crate::proofs::block::Read::non_char_at, crate::proofs::block::Read::non_char_past), unfolding(crate::specs::Layout::non_char_key))]
    fn non_char_key(self, vkey: u16) -> Option<u16>
        ensures { result ≡ nonzero (non_char_key (maps_of self.entry.bytes.now) vkey) }
    {
        if vkey == 0x12 {
            return None;
        }
        let i = usize::from(vkey);
        if VKEYS <= i {
            return None;
        }
        match cell(self.bytes, i) {
            0 => None,
            place => Some(place),
        }
    }
}

// ---- get_key, and the text of a key

// Where list j starts.
#[tactic(auto, using(crate::proofs::block::Lists::start_step), unfolding(crate::specs::Block::start_of))]
fn start_of(block: &[u8], j: usize) -> usize
    requires { (head_size ≤ length block.now) × (j ≤ LISTS) }
    ensures { result ≡ start_of block.now j }
{
    let mut at = HEAD;
    for i in 0..j {
        at += usize::from(area::get_u16(block, SIZES_AT + 2 * i));
    }
    at
}

// Where the entry with that key stands, of n that start at `start`.
fn place(block: &[u8], by_vkey: bool, n: u16, start: usize, key: u64) -> Option<usize>
    requires { (start ≤ length block.now) × (length block.now ≤ BLOCK_MOST) × (list_ok (list_key_ok by_vkey) n 0 (drop start block.now) ≡ true) }
    ensures { result ≡ place_of n key (drop start block.now) start }
{
    let mut at = start;
    for _ in 0..n {
        let l = &block[at..];
        if area::get_u64(l, 0) == key {
            return Some(at);
        }
        at += ENTRY_HEAD + usize::from(l[11]);
    }
    None
}

// The key of the entry at a place.
#[tactic(auto, unfolding(crate::specs::Layout::found_at))]
fn found_at(block: &[u8], at: usize) -> LayoutKey
    requires { (at + entry_head ≤ length block.now) × (length block.now ≤ BLOCK_MOST) }
    ensures { result ≡ found_at block.now at }
{
    let number = area::get_u16(block, at + 8);
    let value = area::get_u32(block, at + 12);
    let key = keys::key_number::key_at(number, block[at + 10], value);
    LayoutKey {
        key,
        start: at + ENTRY_HEAD,
        len: usize::from(block[at + 11]),
    }
}

fn num_lock_list(num_lock_on: bool) -> usize
    ensures { (result ≡ pick num_lock_on 0 1) × (result < LISTS) }
{
    if num_lock_on { 0 } else { 1 }
}

impl Layout<'_> {
    // Where the entry with that key stands in list j.
    fn place_in(self, j: usize, key: u64) -> Option<usize>
        requires { j < LISTS }
        ensures { result ≡ place_in_list self.entry.bytes.now j key }
    {
        let start = start_of(self.bytes, j);
        let n = area::get_u16(self.bytes, COUNTS_AT + 2 * j);
        place(self.bytes, j < LOCK_LISTS, n, start, key)
    }

    // Where the entry of a key stands: in the Num Lock list, else in the list of the modifiers.
    fn place_for(
        self,
        mods: WindowsModifiers,
        num_lock_on: bool,
        vkey: u16,
        key: u64,
    ) -> Option<usize>
        ensures { result ≡ place_for self.entry.bytes.now (bits_of mods) num_lock_on vkey key }
    {
        let list = LOCK_LISTS + mods.bits();
        // Not `or_else`: nothing is known of a closure that captures a Layout, so its proof doesn't close.
        match self.place_in(num_lock_list(num_lock_on), u64::from(vkey)) {
            None => self.place_in(list, key),
            found => found,
        }
    }

    // SCOPE 5.1, tao's Layout::get_key. A virtual key above FF finds nothing in the first two lookups.
    pub fn get_key(
        self,
        mods: WindowsModifiers,
        num_lock_on: bool,
        vkey: u16,
        scancode: u16,
        code: KeyCode,
    ) -> LayoutKey
        ensures { key_in self.entry.bytes.now result ≡ get_key (maps_of self.entry.bytes.now) (bits_of mods) num_lock_on vkey scancode code }
    {
        if let Some(place) = self.non_char_key(vkey) {
            return LayoutKey::bare(Key::Named(place));
        }
        let key = keys::key_code::code_key(code);
        match self.place_for(mods, num_lock_on, vkey, key) {
            Some(at) => found_at(self.bytes, at),
            None => LayoutKey::bare(Key::Unidentified(NativeKeyCode::Windows(scancode))),
        }
    }
}

// SCOPE 5.3, 10.1: the text of a key, as the part of the block that holds it.
pub fn key_text<'a>(block: &'a [u8], k: LayoutKey) -> &'a [u8]
    ensures { result.now ≡ part_of block.now k }
{
    let start = k.start;
    let len = k.len;
    if block.len() < start {
        return &block[0..0];
    }
    if block.len() - start < len {
        return &block[start..];
    }
    let e = start + len;
    &block[start..e]
}
