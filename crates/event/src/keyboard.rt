// What a press, a release, a character or a focus change is read by.
use lookup::block::Layout;

// The key state and the layout that a call is lent.
#[derive(Clone, Copy)]
pub struct Keyboard<'a> {
    pub state: &'a [u8],
    pub layout: Layout<'a>,
}
