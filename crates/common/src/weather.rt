// The weather of one line: document 01, "The forcing list", and document 02, No. 8. Depths in µm, temperatures in thousandths of a degree Celsius.

#[derive(Clone, Copy, Default)]
pub struct Weather {
    pub rain: u64,
    pub pan: u64,
    pub temperature: i64,
}

// The limits of rain and pan, 1,000 and 100 mm.
pub const MOST_RAIN: u64 = 1000000;

pub const MOST_PAN: u64 = 100000;

// The range of a temperature, -80 to 60 degrees.
pub const LEAST_TEMPERATURE: i64 = -80000;

pub const MOST_TEMPERATURE: i64 = 60000;
