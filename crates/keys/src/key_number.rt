// Keys, and the numbers that stand for them (tao's keyboard.rs).
ghost use Rattle.std.specs.Prelude.{List, ◌≡◌, ℕ};
ghost use Rattle.keys.specs.Key.{named_ok, key_number, key_aux, key_value, none_held, dead_ok, key_ok, dead_at, key_at};
ghost use Rattle.keys.specs.Text.{full, to_text, text_from};

use crate::native_code::NativeFields;
use crate::{Key, KeyText};

// What stands for a dead key's character, or for none, beside its place.
const NO_CHARACTER: u8 = 0;

const WITH_CHARACTER: u8 = 1;

// A key as numbers: its place in tao's Key; the kind of the native code that it holds, or for a dead key whether it has
// a character; the value of that code, or the character.
#[derive(Clone, Copy, PartialEq, Eq, Debug)]
pub struct KeyFields {
    pub number: u16,
    pub aux: u8,
    pub value: u32,
}

impl From<Key> for KeyFields {
    ghost from_gives = { λ k f. (f.number ≡ key_number k) × (f.aux ≡ key_aux k) × (f.value ≡ key_value k) };

    #[tactic(auto, unfolding(crate::specs::Key::key_number, crate::specs::Key::key_aux, crate::specs::Key::key_value))]
    fn from(k: Key) -> Self {
        match k {
            Key::Named(number) => Self {
                number,
                aux: 0,
                value: 0,
            },
            Key::Character => Self {
                number: 0,
                aux: 0,
                value: 0,
            },
            Key::Unidentified(c) => {
                let held = NativeFields::from(c);
                Self {
                    number: 1,
                    aux: held.kind,
                    value: held.value,
                }
            }
            Key::Dead => Self {
                number: 2,
                aux: NO_CHARACTER,
                value: 0,
            },
            Key::DeadChar(c) => Self {
                number: 2,
                aux: WITH_CHARACTER,
                value: c,
            },
        }
    }
}

// Whether a case of tao's Key without a value is at this place.
#[tactic(auto, unfolding(crate::specs::Key::named_ok))]
pub fn named_ok(number: u16) -> bool
    ensures { result ≡ named_ok number }
{
    (crate::FIRST_NAMED..crate::KEY_CASES).contains(&number)
}

// Whether both numbers are 0, as they are where nothing is held.
#[tactic(auto, unfolding(crate::specs::Key::none_held))]
fn none_held(aux: u8, value: u32) -> bool
    ensures { result ≡ none_held aux value }
{
    aux == 0 && value == 0
}

// Whether a dead key has these numbers.
#[tactic(auto, unfolding(crate::specs::Key::dead_ok, area::specs::Look::assoc))]
fn dead_ok(aux: u8, value: u32) -> bool
    ensures { result ≡ dead_ok aux value }
{
    match aux {
        NO_CHARACTER => value == 0,
        WITH_CHARACTER => text::is_scalar(value),
        _ => false,
    }
}

// Whether some key has these three numbers.
#[tactic(auto, unfolding(crate::specs::Key::key_ok, area::specs::Look::assoc))]
pub fn key_ok(number: u16, aux: u8, value: u32) -> bool
    ensures { result ≡ key_ok number aux value }
{
    match number {
        0 => none_held(aux, value),
        1 => crate::native_code::native_ok(aux, value),
        2 => dead_ok(aux, value),
        _ => named_ok(number) && none_held(aux, value),
    }
}

// A dead key by its numbers.
#[tactic(auto, unfolding(crate::specs::Key::dead_at, area::specs::Look::assoc))]
fn dead_at(aux: u8, value: u32) -> Key
    ensures { result ≡ dead_at aux value }
{
    match aux {
        NO_CHARACTER => Key::Dead,
        _ => Key::DeadChar(value),
    }
}

// The key of three numbers. Questions 3 and 4 checked them, so TryFrom would add a failure that cannot happen.
#[tactic(auto, unfolding(crate::specs::Key::key_at, area::specs::Look::assoc))]
pub fn key_at(number: u16, aux: u8, value: u32) -> Key
    ensures { result ≡ key_at number aux value }
{
    match number {
        0 => Key::Character,
        1 => Key::Unidentified(crate::native_code::native_at(aux, value)),
        2 => dead_at(aux, value),
        _ => Key::Named(number),
    }
}

// tao's Key::to_text: a character gives its own text, and five control keys give one byte.
#[tactic(auto, unfolding(crate::specs::Text::full, crate::specs::Text::to_text, crate::specs::Text::text_from, area::specs::Look::assoc))]
pub fn to_text(k: Key) -> KeyText
    ensures { (t : List ℕ) → text_from t result ≡ to_text (full k t) }
{
    match k {
        Key::Named(n) => match n {
            crate::ENTER => KeyText::Byte(0x0D),
            crate::BACKSPACE => KeyText::Byte(0x08),
            crate::TAB => KeyText::Byte(0x09),
            crate::SPACE => KeyText::Byte(0x20),
            crate::ESCAPE => KeyText::Byte(0x1B),
            _ => KeyText::Nothing,
        },
        Key::Character => KeyText::Own,
        Key::Unidentified(_) | Key::Dead | Key::DeadChar(_) => KeyText::Nothing,
    }
}
