// The records of the object table, loaded and stored: at 2h an object's head, type + 256 * flags, at 2h + 1 its word (tables/specs/Table.antt).
// Both are total, as the accessors of `tables` are: behind the table's end a load gives the all-zero record and a store does nothing.
#![tactic(auto)]

ghost use Rattle.std.specs.Prelude.{◌≡◌};
ghost use Rattle.tables.specs.Table.{object_at, put_object};

use userspace::KernelObject;

#[tactic(auto, unfolding(tables::specs::Table::object_at))]
pub fn load_object(objects: &[u64], h: u32) -> KernelObject
    ensures { result ≡ object_at objects.now h }
{
    let i = 2 * u64::from(h);
    let head = tables::load(objects, i, 0);
    let word = tables::load(objects, i + 1, 0);
    KernelObject {
        obj_type: (head % 256) as u8,
        flags: (head / 256 % 256) as u8,
        word,
    }
}

#[tactic(auto, unfolding(tables::specs::Table::put_object))]
pub fn store_object(objects: &mut [u64], h: u32, o: KernelObject)
    ensures { objects.new ≡ put_object objects.old h o }
{
    let i = 2 * u64::from(h);
    tables::store(objects, i, u64::from(o.obj_type) + 256 * u64::from(o.flags));
    tables::store(objects, i + 1, o.word);
}
