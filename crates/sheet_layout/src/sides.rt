// What a view needs around its box.

/// What a view needs around its box, in hundredths of a millimetre: so much on each side, and as its width with both sides at least
/// `width`, whose middle is that of the box. No side is narrower than 7.5 mm, whatever is asked.
#[derive(Clone, Copy, Debug)]
pub struct Sides {
    pub left: u32,
    pub right: u32,
    pub top: u32,
    pub bottom: u32,
    pub width: u32,
}
