// Native key codes and key locations, and the numbers that stand for them (tao's keyboard.rs).
ghost use Rattle.std.specs.Prelude.{◌≡◌};
ghost use Rattle.keys.specs.Location.{location_number, location_at};
ghost use Rattle.keys.specs.Native.{native_kind, native_value, native_ok, native_at};

use crate::{KeyLocation, NativeKeyCode};

// A native code as numbers: which case of NativeKeyCode it is, and the code itself, Android's as its bits.
#[derive(Clone, Copy, PartialEq, Eq, Debug)]
pub struct NativeFields {
    pub kind: u8,
    pub value: u32,
}

impl From<NativeKeyCode> for NativeFields {
    ghost from_gives = { λ c f. (f.kind ≡ native_kind c) × (f.value ≡ native_value c) };

    #[tactic(auto, unfolding(crate::specs::Native::native_kind, crate::specs::Native::native_value))]
    fn from(c: NativeKeyCode) -> Self {
        match c {
            NativeKeyCode::Unidentified => Self { kind: 0, value: 0 },
            NativeKeyCode::Windows(n) => Self {
                kind: 1,
                value: u32::from(n),
            },
            NativeKeyCode::MacOS(n) => Self {
                kind: 2,
                value: u32::from(n),
            },
            NativeKeyCode::Gtk(n) => Self {
                kind: 3,
                value: u32::from(n),
            },
            NativeKeyCode::Android(z) => Self {
                kind: 4,
                value: z.cast_unsigned(),
            },
        }
    }
}

// Whether some native code has this kind and value.
#[tactic(auto, unfolding(crate::specs::Native::native_ok))]
pub fn native_ok(kind: u8, value: u32) -> bool
    ensures { result ≡ native_ok kind value }
{
    match kind {
        0 => value == 0,
        1..=3 => value < 0x1_0000,
        _ => kind == 4,
    }
}

// The native code of a kind and a value. Questions 3 and 4 checked both, so TryFrom would add a failure that cannot happen.
#[tactic(auto, unfolding(crate::specs::Native::native_at, area::specs::Look::assoc))]
pub fn native_at(kind: u8, value: u32) -> NativeKeyCode
    ensures { result ≡ native_at kind value }
{
    let code = (value % 65536) as u16;
    match kind {
        1 => NativeKeyCode::Windows(code),
        2 => NativeKeyCode::MacOS(code),
        3 => NativeKeyCode::Gtk(code),
        4 => NativeKeyCode::Android(value.cast_signed()),
        _ => NativeKeyCode::Unidentified,
    }
}

// Which case of KeyLocation it is.
impl From<KeyLocation> for u8 {
    ghost from_gives = { λ l n. n ≡ location_number l };

    #[tactic(auto, unfolding(crate::specs::Location::location_number))]
    fn from(l: KeyLocation) -> u8 {
        l as u8
    }
}

// The location of a number; past the last, the last. Question 4 checked it, so TryFrom would add a failure that cannot happen.
#[tactic(auto, unfolding(crate::specs::Location::location_at, area::specs::Look::assoc))]
pub fn location_at(n: u8) -> KeyLocation
    ensures { result ≡ location_at n }
{
    match n {
        0 => KeyLocation::Standard,
        1 => KeyLocation::Left,
        2 => KeyLocation::Right,
        _ => KeyLocation::Numpad,
    }
}
