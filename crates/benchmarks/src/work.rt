// The numbers of keys that a benchmark uses, batches of puts to them, and its walk.
ghost use Rattle.std.specs.Prelude.{◌≡◌, ◌<◌, ◌⊎◌, IfErr, IfOk, OnOk, OnErr, Some};
ghost use Rattle.std.specs.Borrow.{sem};
ghost use Rattle.kv_types.specs.{batch_error, unmarked};
ghost use Rattle.kv_types.specs.Content.{edits_of};
ghost use Rattle.kv_types.specs.declared.bounds.TheConstants.{MAX_VALUE};
ghost use Rattle.benchmarks.specs.Keys.{first_seed};
ghost use Rattle.benchmarks.specs.Lending.{LendsWalk};
ghost use Rattle.benchmarks.specs.Stretches.{text_len};
ghost use Rattle.benchmarks.specs.Walks.{first_range};
ghost use Rattle.benchmarks.specs.Works.{behind_number, behind_puts, is_backward, key_read};
ghost use Rattle.benchmarks.specs.Works.{drawn_number, next_puts, range_walked};

use crate::{Benchmark, Random, Values, Walk, key, missing_key};
use kv_types::{Batch, Edit, Key, KvError};
use std::alloc::Global;

/// Numbers of keys, values for them, and a walk.
#[derive(Drop)]
pub struct Work {
    benchmark: Benchmark,
    values: Values,
    walk: Walk,
    next: u64,
    keys: u64,
    random: Random,
}

/// Whether a benchmark walks from the greatest key to the least.
fn is_backward(benchmark: Benchmark) -> bool
    ensures { result ≡ is_backward benchmark }
{
    match benchmark {
        Benchmark::ReadReverse => true,
        _ => false,
    }
}

impl Work {
    /// Values of this length, from their text's beginning on, for so many keys.
    pub fn new(alloc: Global, length: usize, keys: u64) -> Result<Work, KvError>
        ensures made { IfOk result (λ work. (work.values.size ≡ length) × (work.keys ≡ keys)) }
        ensures text { IfOk result
            (λ work. (text_len work.values ≡ 1048600) × (work.values.place ≡ 0)) }
        ensures refused { IfErr result (λ e. (e ≡ KvError.Memory)
            ⊎ ((e ≡ KvError.ValueTooLong) × (1048600 < length))) }
    {
        Ok(Work {
            benchmark: Benchmark::FillSeq,
            values: Values::new(alloc, length)?,
            walk: Walk::new(alloc, false)?,
            next: 0,
            keys,
            random: Random::new(1),
        })
    }

    /// Begins a benchmark: with the first number, or with those that this seed gives. It is refused
    /// for memory alone, and then nothing has changed.
    pub fn begin(&mut self, alloc: Global, benchmark: Benchmark, seed: u32) -> Result<(), KvError>
        ensures begun { OnOk result (self.new ≡ record self.old {
          benchmark = benchmark;
          walk = record { range = first_range (is_backward benchmark) };
          next = 0;
          random = first_seed seed;
        }) }
        ensures err { OnErr result (self.new ≡ self.old) }
        ensures refused { IfErr result (λ e. e ≡ KvError.Memory) }
    {
        self.walk = Walk::new(alloc, is_backward(benchmark))?;
        self.benchmark = benchmark;
        self.next = 0;
        self.random = Random::new(seed);
        Ok(())
    }

    /// The next number: in order, or at random below the number of keys.
    pub fn next_number(&mut self) -> u64
        ensures number { result ≡ drawn_number self.old }
        ensures behind { self.new ≡ behind_number self.old }
    {
        match self.benchmark {
            Benchmark::FillSeq | Benchmark::ChainSubmit => {
                let number = self.next;
                self.next = number.saturating_add(1);
                number
            }
            _ => self.random.below(self.keys),
        }
    }

    /// The next number's key, or in `readmissing` one that no number has.
    pub fn next_key(&mut self, alloc: Global) -> Result<Key, KvError>
        ensures key { IfOk result
            (λ key. key ≡ key_read self.old.benchmark (drawn_number self.old)) }
        ensures behind { self.new ≡ behind_number self.old }
        ensures refused { IfErr result (λ e. e ≡ KvError.Memory) }
    {
        let number = self.next_number();
        match self.benchmark {
            Benchmark::ReadMissing => missing_key(alloc, number),
            _ => key(alloc, number),
        }
    }

    /// A batch of so many puts, to the next numbers' keys. It is refused for want of memory, where
    /// a value may not be so long, or where so many puts are no batch.
    pub fn next_batch(&mut self, alloc: Global, puts: u64) -> Result<Batch, KvError>
        ensures edits { IfOk result (λ batch. edits_of batch ≡ next_puts puts self.old) }
        ensures behind { OnOk result (self.new ≡ behind_puts puts self.old) }
        ensures refused { IfErr result (λ e. (e ≡ KvError.Memory)
            ⊎ ((e ≡ KvError.ValueTooLong) × (MAX_VALUE < self.old.values.size))
            ⊎ (batch_error (unmarked (next_puts puts self.old)) ≡ Some e)) }
    {
        let mut edits = Vec::new(alloc);
        for _ in 0..puts {
            let key = key(alloc, self.next_number())?;
            edits.push(Edit::Put(key, self.values.next(alloc)?))?;
        }
        Batch::new(edits)
    }

    /// The walk. In `seekrandom` it begins again, at the next number's key. The walk is lent, and
    /// nothing else changes but that this number is drawn.
    pub fn walk(&mut self, alloc: Global) -> Result<&mut Walk, KvError>
        ensures* lent { sem 𝓛 (LendsWalk self.entry result) }
        ensures range { IfOk result (λ walk. walk.now.range ≡ range_walked self.old) }
        ensures refused { IfErr result (λ e. e ≡ KvError.Memory) }
    {
        match self.benchmark {
            Benchmark::SeekRandom => {
                let key = key(alloc, self.next_number())?;
                self.walk.seek(key)?;
                Ok(&mut self.walk)
            }
            _ => Ok(&mut self.walk),
        }
    }

    /// Lets the values go. A crate that ends them by this call need not prove their drop; the same
    /// holds for the calls that count what they are given.
    pub fn close(self) {
        drop(self);
    }
}
