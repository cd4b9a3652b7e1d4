//! Places under the sites for which they are noted.
ghost use Rattle.std.specs.Prelude.{◌≡◌, ◌++◌, map, OnOk};
ghost use Rattle.track_tables.specs.Noted.{noted_at};

use lists::{Keyed, NoMemory};

/// Notes the place for each of the sites.
pub(crate) fn note(
    sites: &[u32],
    place: u32,
    noted: &mut Vec<Keyed<u32, u32>>,
) -> Result<(), NoMemory>
    ensures { OnOk result (noted.new.items ≡ noted.old.items ++ map (noted_at place) sites.now) }
{
    for site in sites {
        noted.push(Keyed {
            key: *site,
            item: place,
        })?;
    }
    Ok(())
}
