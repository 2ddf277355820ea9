ghost use Rattle.std.specs.Prelude.{◌≡◌, OnOk, OnErr, Some};
ghost use Rattle.std.specs.BTreeMap.{Updates, IsOrdered, insert_entry};

use std::alloc::AllocError;
use std::collections::BTreeMap;

// Keeps a value under a key, in place of an older one.
pub(crate) fn put<K: Ord + Drop, V: Drop>(
    map: &mut BTreeMap<K, V>,
    key: K,
    value: V,
) -> Result<(), AllocError>
    ensures entries { OnOk result (map.new.entries ≡ insert_entry K.cmp map.old.entries key value) }
    ensures updates { OnOk result (Updates K.cmp map.old map.new key (Some value)) }
    ensures was_ordered { IsOrdered K.cmp map.old }
    ensures err { OnErr result (map.new.entries ≡ map.old.entries) }
{
    map.insert(key, value)?;
    Ok(())
}
