//! The configurations of a script: the numbers of a line, as the ids of nodes.
ghost use Rattle.std.specs.Prelude.{◌≡◌, ◌≢◌, map, true, false, Some, None, IfOk, MatchResult};
ghost use Rattle.std.specs.Prelude.{IfSome, MatchOption, List, ℕ};
ghost use Rattle.std.specs.Fmt.{decimal};
ghost use Rattle.std.specs.List.{list_all};
ghost use Rattle.configurations.specs.Configs.{IsConfig, is_config};
ghost use Rattle.configurations.specs.NodeLists.{Lawful};
ghost use Rattle.script_words.specs.declared.error.ScriptError.TheVariants.{OutOfMemory};
ghost use Rattle.script_words.specs.declared.error.ScriptError.TheVariants.{BadConfiguration};
ghost use Rattle.script_words.specs.Words.{is_number};
ghost use Rattle.scripts.specs.Faults.{config_fault, may_follow, numbers_of};
ghost use Rattle.scripts.specs.Scripts.{MayFollow, up_to};

use crate::statement::ParserState;
use configurations::laws::test_decides_config;
use configurations::{Config, ConfigError, Configs, Epoch};
use kv_types::laws::is_part_decides;
use script_words::{ScriptError, number, split_fault};
use std::alloc::{AllocError, Global};

// The numbers that words spell.
fn numbers(alloc: Global, words: &[&[u8]]) -> Result<Option<Vec<u64>>, AllocError>
    ensures { IfOk result (λ found.
        MatchOption found (list_all is_number (map (λ w. w.now) words.now) ≡ false)
        (λ ns. (list_all is_number (map (λ w. w.now) words.now) ≡ true)
        × (map (λ w. w.now) words.now ≡ map decimal ns.items)
        × (numbers_of (map (λ w. w.now) words.now) ≡ ns.items))) }
{
    let mut numbers = Vec::new(alloc);
    for word in words {
        let Some(n) = number(word) else {
            return Ok(None);
        };
        numbers.push(n)?;
    }
    Ok(Some(numbers))
}

// The ids that numbers may be.
fn ids_of(alloc: Global, numbers: &[u64]) -> Result<Option<Vec<u16>>, AllocError>
    ensures { IfOk result (λ found. MatchOption found (is_config numbers.now ≡ false)
        (λ ids. ids.items ≡ numbers.now)) }
{
    let mut ids = Vec::new(alloc);
    for &number in numbers {
        let Ok(id) = u16::try_from(number) else {
            return Ok(None);
        };
        ids.push(id)?;
    }
    Ok(Some(ids))
}

// What is wrong with a script's ids.
fn config_error(error: ConfigError) -> ScriptError
    ensures memory { error ≡ ConfigError.Memory → result ≡ OutOfMemory }
    ensures bad { error ≢ ConfigError.Memory → result ≡ BadConfiguration }
{
    match error {
        ConfigError::Memory => ScriptError::OutOfMemory,
        _ => ScriptError::BadConfiguration,
    }
}

// The configuration of the nodes of these numbers.
fn config_of(alloc: Global, numbers: &[u64]) -> Result<Config, ScriptError>
    ensures { MatchResult result
        (λ config. (config ≡ numbers.now) × IsConfig config × (is_config numbers.now ≡ true))
        (λ e. e ≢ OutOfMemory → (e ≡ BadConfiguration) × (is_config numbers.now ≡ false)) }
{
    test_decides_config(); // law: the test succeeds exactly for the configurations
    let Some(ids) = ids_of(alloc, numbers)? else {
        return Err(ScriptError::BadConfiguration);
    };
    match Config::new(alloc, ids) {
        Ok(config) => Ok(config),
        Err(error) => Err(config_error(error)),
    }
}

// The configurations of a list, with memory of their own.
fn copies_of(alloc: Global, configs: &Configs) -> Result<Vec<Config>, AllocError>
    ensures copies { IfOk result (λ copies. copies.items ≡ configs.now) }
    ensures lawful { Lawful configs.now }
{
    let _first = configs.first(); // law: the list is lawful
    let mut copies = Vec::new(alloc);
    for number in 0..=15 {
        let Some(config) = Epoch::new(number).and_then(|epoch| configs.at(epoch)) else {
            return Ok(copies);
        };
        copies.push(config.clone()?)?;
    }
    Ok(copies)
}

// The configurations of earlier lines, and this one.
fn listed(
    alloc: Global,
    before: &Option<Configs>,
    config: Config,
) -> Result<Vec<Config>, AllocError>
    ensures list { IfOk result (λ list. list.items ≡ up_to before.now config) }
    ensures lawful { IfSome before.now Lawful }
{
    let mut list = match before {
        None => Vec::new(alloc),
        Some(configs) => copies_of(alloc, configs)?,
    };
    list.push(config)?;
    Ok(list)
}

// The configurations up to the line of this one.
fn extended(alloc: Global, before: &Option<Configs>, config: Config) -> Result<Configs, ScriptError>
    ensures { MatchResult result
        (λ configs. (may_follow before.now config ≡ true) × MayFollow before.now config
        × (configs ≡ up_to before.now config))
        (λ e. e ≢ OutOfMemory → (e ≡ BadConfiguration) × (may_follow before.now config ≡ false)) }
{
    test_decides_config(); // law: the test succeeds exactly for the configurations
    is_part_decides(); // law: the test of a part decides
    let _ids = config.ids(); // law: they are a configuration
    match Configs::new(listed(alloc, before, config)?) {
        Ok(configs) => Ok(configs),
        Err(_) => Err(ScriptError::BadConfiguration),
    }
}

/// The configurations up to a line, which has another one.
pub fn config(alloc: Global, before: &ParserState, args: &[&[u8]]) -> Result<Configs, ScriptError>
    ensures { MatchResult result
        (λ configs. (config_fault before.now (map (λ w. w.now) args.now) ≡ None)
        × ((ids : List ℕ) × (map (λ w. w.now) args.now ≡ map decimal ids)
        × (numbers_of (map (λ w. w.now) args.now) ≡ ids) × MayFollow before.now.configs ids
        × (configs ≡ up_to before.now.configs ids)) × (before.now.begun ≡ false))
        (λ e. e ≢ OutOfMemory →
        config_fault before.now (map (λ w. w.now) args.now) ≡ Some e) }
{
    let (words, behind) = split_fault(args);
    let Some(numbers) = numbers(alloc, words)? else {
        return Err(ScriptError::BadNumber);
    };
    if !behind.is_empty() {
        return Err(ScriptError::BadFault);
    }
    if before.begun {
        return Err(ScriptError::OutOfPlace);
    }
    match config_of(alloc, &numbers) {
        Ok(config) => extended(alloc, &before.configs, config),
        Err(e) => Err(e),
    }
}
