// Floats by their bits. The language keeps one NaN, so of a NaN only that it is one can be held to a record.

// Whether the bits of x are this word, or both are a NaN.
pub fn has_bits(x: f64, word: u64) -> bool {
    if x.is_nan() {
        float_bits::float_of(word).is_nan()
    } else {
        x.to_bits() == word
    }
}
