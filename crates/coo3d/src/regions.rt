// One thing for each region of the sphere, and the two of a cap.

#[derive(Clone, Copy)]
pub struct Regions<C, E> {
    pub south: C,
    pub equator: E,
    pub north: C,
}

// An arc has up to two pieces in a cap: the source's res_z1 and res_z2 are their slots.
#[derive(Clone, Copy)]
pub struct Cap<T> {
    pub first: T,
    pub second: T,
}
