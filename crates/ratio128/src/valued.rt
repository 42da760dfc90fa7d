/// Whole numerators over one denominator, which is at least 1.
#[derive(Clone, Copy, Debug, PartialEq, Eq)]
pub struct Valued<P> {
    pub value: P,
    pub den: u128,
}
