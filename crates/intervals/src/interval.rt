// An interval.

/// What is between two values of an ordered type, from the lesser to the greater.
#[derive(Clone, Copy, Debug)]
pub struct Interval<T> {
    pub from: T,
    pub to: T,
}
