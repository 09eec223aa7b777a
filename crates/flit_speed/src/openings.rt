ghost use Rattle.std.specs.Prelude.{◌≡◌, IfOk};
ghost use Rattle.flit_speed.specs.Benches.{IsStart, one_row as the_row};

use flit_hashed::Hashed;
use flit_model::{Call, Recovered};
use flit_recover::fresh;
use flit_rows::Pool;
use flit_sample::Sample;
use flit_sched::recovered_opens;
use flit_words::{GREATEST_VERSION, Kind, Layout, NoMemory};
use std::alloc::Global;

pub(crate) const PUT: Call = Call::Insert(5, 0);

pub(crate) const HAS: Call = Call::Contains(5);

/// A list of one row, whose words have one of eight slots each.
pub(crate) fn one_row() -> Layout
    ensures { result ≡ the_row }
{
    Layout {
        kind: Kind::List,
        buckets: 1,
        rows: 1,
        slots: 8,
        workers: 1,
        limit: GREATEST_VERSION,
        values: false,
    }
}

/// The sample over that list, and what recovery finds in its fresh words.
pub(crate) fn on_fresh_words(alloc: Global) -> Result<(Sample<Hashed>, Recovered), NoMemory>
    ensures { IfOk result (λ r. IsStart r.0 r.1) }
{
    recovered_opens();
    let layout = one_row();
    let start = fresh(alloc, &layout)?;
    let pool = Pool::new(alloc, &start.free)?;
    let sample = Sample::new(layout, Hashed { slots: 8 }, pool);
    Ok((sample, start))
}
