//! Where things stand in a picture.

ghost use Rattle.std.specs.Prelude.{◌≡◌, ◌≤◌, ◌<◌, ◌^◌};
ghost use Rattle.picture_parts.specs.Frames.{band_height, band_top, bottom, column_left};
ghost use Rattle.picture_parts.specs.Frames.{column_middle, configuration, column_width, left};
ghost use Rattle.picture_parts.specs.Frames.{line_top, middle, right, spot_top, width};

/// How many columns stand side by side at most.
pub const MOST_COLUMNS: u32 = 120;

/// How many rounds a script has at most: no configuration has a higher number.
pub const MOST_ROUNDS: u32 = 1_000_000;

/// What all parts of a picture stand in.
#[derive(Clone, Copy)]
pub struct Frame {
    /// The configuration of the first column.
    pub first: u32,
    pub columns: u32,
    /// How many digits the longest number has, that of a configuration too.
    pub digits: u16,
    /// How high a band is.
    pub height: u32,
    /// What outputs count by, as far as they show it: one more than the largest one, or 0 if there
    /// is none.
    pub modulus: u64,
}

/// Where something is drawn: in a column, from a height of its band on.
#[derive(Clone, Copy)]
pub struct CellPosition {
    pub frame: Frame,
    pub column: u32,
    /// How far it is below the top of its band.
    pub top: u32,
}

/// How wide a column is whose longest number has so many digits.
pub fn column_width(digits: u16) -> u64
    ensures { result ≡ column_width digits }
{
    8 + 7 * u64::from(digits)
}

/// The left side of a column, in its band.
pub fn column_left(digits: u16, column: u32) -> u64
    ensures value { result ≡ column_left digits column }
    ensures most { result ≤ 2 ^ 40 }
{
    52 + u64::from(column % MOST_COLUMNS) * column_width(digits)
}

/// The middle of a column.
pub fn column_middle(digits: u16, column: u32) -> u64
    ensures { result ≡ column_middle digits column }
{
    column_left(digits, column) + column_width(digits) / 2
}

/// The top of a column's band.
pub fn band_top(height: u32, column: u32) -> u64
    ensures value { result ≡ band_top height column }
    ensures most { result < 2 ^ 58 }
{
    u64::from(column / MOST_COLUMNS) * u64::from(height)
}

/// The configuration of a spot.
pub fn configuration(spot: CellPosition) -> u64
    ensures { result ≡ configuration spot }
{
    u64::from(spot.frame.first) + u64::from(spot.column)
}

/// The left side of a spot.
pub fn left(spot: CellPosition) -> u64
    ensures value { result ≡ left spot }
    ensures most { result ≤ 2 ^ 40 }
{
    column_left(spot.frame.digits, spot.column)
}

/// The middle of a spot.
pub fn middle(spot: CellPosition) -> u64
    ensures value { result ≡ middle spot }
    ensures least { 3 ≤ result }
{
    column_middle(spot.frame.digits, spot.column)
}

/// How wide a spot is.
pub fn width(spot: CellPosition) -> u64
    ensures value { result ≡ width spot }
    ensures least { 4 ≤ result }
    ensures most { result ≤ 2 ^ 20 }
{
    column_width(spot.frame.digits)
}

/// The top of a spot.
pub fn spot_top(spot: CellPosition) -> u64
    ensures value { result ≡ spot_top spot }
    ensures most { result < 2 ^ 59 }
{
    band_top(spot.frame.height, spot.column) + u64::from(spot.top)
}

/// What is below all bands.
pub fn bottom(frame: Frame) -> u64
    ensures value { result ≡ bottom frame }
    ensures most { result < 2 ^ 58 }
{
    (u64::from(frame.columns) + 119) / 120 * u64::from(frame.height)
}

/// What is on the right of all columns.
pub fn right(frame: Frame) -> u64
    ensures value { result ≡ right frame }
    ensures most { result ≤ 2 ^ 40 }
{
    60 + u64::from(frame.columns.min(MOST_COLUMNS)) * column_width(frame.digits)
}

/// The top of a node's line in a band of rows.
pub fn line_top(node: u16) -> u32
    ensures value { result ≡ line_top node }
    ensures most { result ≤ 2 ^ 24 }
{
    30 + 18 * u32::from(node)
}

/// How high a band of rows is.
pub fn band_height(nodes: u16) -> u32
    ensures { result ≡ band_height nodes }
{
    80 + 18 * u32::from(nodes)
}

/// How many digits the number of a configuration has, which is at most [`MOST_ROUNDS`].
pub fn digits_of(t: u32) -> u16 {
    match t {
        0..=9 => 1,
        10..=99 => 2,
        100..=999 => 3,
        1000..=9999 => 4,
        10000..=99999 => 5,
        100000..=999999 => 6,
        _ => 7,
    }
}
