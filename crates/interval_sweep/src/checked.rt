// An input that passed its checks.
ghost use Rattle.std.specs.Prelude.{◌≡◌, ◌+◌, ◌≤◌, ◌<◌, length};
ghost use Rattle.base.specs.Lists.{StrictAsc};
ghost use Rattle.rules.specs.Limits.{query_limit, item_limit};
ghost use Rattle.base.specs.Props.{StrictAsc-prop};

use base::Settings;
use interval_events::intervals::Intervals;
use sweep::Table;

// The query ascends, and the table has an entry for each count of shared hashes, 0 included.
#[derive(Clone, Copy)]
pub struct Checked<'a> {
    pub settings: Settings,
    pub query: &'a [u64],
    pub intervals: Intervals<'a>,
    pub table: Table<'a>,
    ghost few_hashes: { length query.now ≤ query_limit },
    ghost few_items: { length intervals.hashes.now ≤ item_limit },
    ghost kmer_is: { 0 < settings.kmer },
    ghost query_ascends: { StrictAsc query.now } by { StrictAsc-prop query.now },
    ghost same_table: { length table.identities.now ≡ length table.uppers.now },
    ghost entries: { length query.now + 1 ≤ length table.identities.now },
}
