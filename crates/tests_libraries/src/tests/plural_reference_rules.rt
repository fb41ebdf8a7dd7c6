//! Rules of CLDR as printed: Russian few, Bengali ordinal one, and French many, whose samples are
//! compact numbers, some of them long.

pub(crate) const RUSSIAN_FEW: &str =
    "v = 0 and i % 10 = 2..4 and i % 100 != 12..14 @integer 2~4, 22~24, 32~34, 42~44, 52~54, 62, 102, 1002, …";

pub(crate) const BENGALI_ONE: &str = "n = 1, 5, 7, 8, 9, 10 @integer 1, 5, 7~10";

pub(crate) const FRENCH_MANY: &str =
    "e = 0 and i != 0 and i % 1000000 = 0 and v = 0 or e != 0..5 @integer 1000000, 1c6, 2c6, 3c6, 4c6, 5c6, 6c6, … \
@decimal 1.0000001c6, 1.1c6, 2.0000001c6, 2.1c6, 3.0000001c6, 3.1c6, …";
