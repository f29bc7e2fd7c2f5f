// The statistics as one JSON object.
ghost use Rattle.std.specs.Prelude.{◌≡◌, ◌≤◌, IfOk};
ghost use Rattle.probe_stats.specs.Stats.{json_text, stats_pairs, members_of};
ghost use Rattle.serde_json.specs.View.{members_view};

use super::Counters;
use gc_base::{NoMemory, Tick};
use serde_json::{Map, Value};
use std::alloc::Global;

impl Counters {
    /// The statistics at a tick as one JSON object with no space, in the order of the lines.
    pub fn json(&self, alloc: Global, now: Tick) -> Result<Vec<u8>, NoMemory>
        ensures { IfOk result (λ text. text.items ≡ json_text (stats_pairs self.now now)) }
    {
        let members = self.members(alloc, now)?;
        Ok(Value::Object(members).to_vec(alloc)?)
    }

    /// The members of the object.
    fn members(&self, alloc: Global, now: Tick) -> Result<Map<String, Value>, NoMemory>
        ensures { IfOk result (λ m. members_view m.entries ≡ members_of (stats_pairs self.now now)) }
    {
        let mut members = Map::new(alloc);
        let mut n = 0;
        while let Some(pair) = self.pair(n, now) {
            let name = String::from_str(alloc, pair.name)?;
            members.insert(name, Value::from(pair.number))?;
            n += 1;
        }
        Ok(members)
    }
}
