//! Laws of the definitions that contracts use. The functions do nothing: their clauses are the
//! laws.
ghost use Rattle.bloom.specs.Filters.{FiltersCover};
ghost use Rattle.bloom.specs.Examples.{FilterExamples};

/// The filter of some keys covers each of them.
pub fn filters_cover()
    ensures { FiltersCover }
{}

/// The hashes of the key `abc`, its probes among 64 bits, and the lengths of filters, worked out.
pub fn examples()
    ensures { FilterExamples }
{}
