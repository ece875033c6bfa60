//! A line of a certificate as a value.
use ti_caps::Bytes;
use ti_rows::Row;
use vt_effects::Effect;

/// A line of a certificate about a checked capability: the string of `row` is `bytes`, and their
/// effect is `effect`.
#[derive(Debug, Drop)]
pub struct RowLine {
    pub row: Row,
    pub bytes: Bytes,
    pub effect: Effect,
}
