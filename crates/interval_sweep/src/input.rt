// The input of a call and its checks, in the order of their numbers; the first that fails gives its reason and its place.
ghost use Rattle.std.specs.Prelude.{◌≡◌, ◌^◌, ◌<◌, length, IfOk};
ghost use Rattle.rules.specs.Checks.{interval_sizes, keys_need};

use base::{Reason, Refusal, Settings};
use sweep::{Lengths, Table};

// As it came: nothing is known of it.
#[derive(Clone, Copy)]
pub struct Input<'a> {
    pub settings: Settings,
    pub query: &'a [u64],
    pub hashes: &'a [u64],
    pub starts: &'a [u32],
    pub ends: &'a [u32],
    pub table: Table<'a>,
}

impl Input<'_> {
    ghost use Rattle.interval_sweep.specs.Given.{verdict_of, Passed};

    // 1, 2 and 3, of the lengths of the lists. The minimizer sweep has a list less and a setting more: one function, of a list of lengths and a
    // list of settings, would be no plainer.
    fn check_sizes(self) -> Result<(), Refusal>
        ensures { result ≡ interval_sizes (length self.entry.query.now) (length self.entry.hashes.now) (length self.entry.starts.now) (length self.entry.ends.now) (length self.entry.table.identities.now) (length self.entry.table.uppers.now) self.entry.settings.kmer }
    {
        let items = self.hashes.len();
        let starts = self.starts.len();
        let ends = self.ends.len();
        if self.query.len() > 4096 || items > 61440 || starts > 61440 || ends > 61440 {
            return Err(Refusal {
                reason: Reason::TooLarge,
                place: 0,
            });
        }
        if self.settings.kmer == 0 {
            return Err(Refusal {
                reason: Reason::BadSetting,
                place: 0,
            });
        }
        if items != starts
            || items != ends
            || self.table.identities.len() != self.table.uppers.len()
        {
            return Err(Refusal {
                reason: Reason::UnequalLengths,
                place: 0,
            });
        }
        Ok(())
    }

    // All of them; of the work lists and the event keys the lengths.
    pub fn check(self, lent: Lengths, events: usize) -> Result<(), Refusal>
        ensures verdict { result ≡ verdict_of self.entry lent events }
        ensures passed { IfOk result (λ _. Passed self.entry lent events) }
    {
        let k = self.query.len();
        let n = self.hashes.len();
        self.check_sizes()?;
        sweep::check_orders(self.query, self.starts)?;
        sweep::check_table(k, self.table.identities.len())?;
        sweep::check_needs(k + n, lent)?;
        check_events(n, events)
    }
}

// 8 of the event keys, of which each interval has two: its start and its end.
fn check_events(items: usize, events: usize) -> Result<(), Refusal>
    requires { items < 2 ^ 32 }
    ensures { result ≡ keys_need items events }
{
    if events < 2 * items {
        return Err(Refusal {
            reason: Reason::ShortBuffer,
            place: 0,
        });
    }
    Ok(())
}
