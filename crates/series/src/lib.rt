// Series as records, and on paper (`specs/`): the two bodies, a start second and fourteen coefficients a segment, which series are accepted, the value at a second,
// with examples and theorems (document 01, "Segments"). Nothing here runs: the functions are those of `acceptance`.
#![tactic(auto)]

#[derive(Clone, Copy)]
pub enum Body {
    Sun,
    Moon,
}
