//! Laws of the definitions that contracts use. The functions do nothing: their clauses are the
//! laws.
ghost use Rattle.std.specs.Prelude.{◌≡◌};
ghost use Rattle.configurations.specs.Configs.{TestDecidesConfig};
ghost use Rattle.configurations.specs.Refusals.{fault_number};
ghost use Rattle.configurations.specs.Spelling.{ConfigTextIsUnique, ConfigTextIsShort};

use crate::{ConfigError, Epoch};

/// The test of a configuration succeeds exactly for the configurations.
pub fn test_decides_config()
    ensures { TestDecidesConfig }
{}

/// No spelling is a prefix of another, no two configurations have one spelling, and each spelling
/// keeps the limit.
pub fn config_text_is_unique()
    ensures unique { ConfigTextIsUnique }
    ensures short { ConfigTextIsShort }
{}

/// The number of each refusal, which is its place in the order of the tests.
// law: of the values of `ConfigError`'s variants, which no clause can name
pub fn fault_number_is(error: ConfigError) -> u8
    ensures { result ≡ fault_number error }
{
    error as u8
}

/// The first epoch, which is 0.
// law: of `Epoch::FIRST`, which no clause can name
pub fn first_epoch() -> Epoch
    ensures { result ≡ 0 }
{
    Epoch::FIRST
}
