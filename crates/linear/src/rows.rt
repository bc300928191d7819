// Rows of listed terms.
use crate::lists::Terms;
use senses::Bound;

// Terms, and the bound of their left side.
#[derive(Clone, Copy)]
pub struct Row<'a> {
    pub terms: Terms<'a>,
    pub bound: Bound,
}
