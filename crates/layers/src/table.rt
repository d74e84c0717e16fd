// The names that a renaming layer gives to vectors.
ghost use Rattle.std.specs.Prelude.{◌≡◌, ◌<◌, true, false, MatchResult, slice_index};
ghost use Rattle.vectors.specs.Sets.{usable as is_usable};
ghost use Rattle.layers.specs.Tables.{IsTable, lawful_at, lawful_names, lawful_table, number as number_of};

use vectors::usable;

#[derive(Clone, Copy, PartialEq, Eq, Debug)]
pub enum TableFault {
    // other than 256 bytes, or a place with a byte that it may not have
    NotATable,
}

// The number by which reports name the refusal.
impl From<TableFault> for u8 {
    ghost from_gives = { λ fault n. n ≡ number_of fault };

    fn from(fault: TableFault) -> u8 {
        match fault {
            TableFault::NotATable => 0x07,
        }
    }
}

// 256 bytes: places 10h to FFh hold usable vectors, the others 0.
// A ghost field and no model: tried, callers see a model's value alone, and three proofs of `Renaming` lacked the law.
#[derive(Clone, Copy)]
pub struct Table {
    names: [u8; 256],
    ghost lawful: { IsTable names },
}

// A table from its bytes; others are refused.
impl TryFrom<&[u8]> for Table {
    type Error = TableFault;

    ghost try_from_gives = { λ bytes r. MatchResult r (λ t. (t.names ≡ bytes.now) × (lawful_table bytes.now ≡ true)) (λ _. lawful_table bytes.now ≡ false) };

    fn try_from(bytes: &[u8]) -> Result<Table, TableFault> {
        let names = bytes.as_array().ok_or(TableFault::NotATable)?;
        if !is_table(names) {
            return Err(TableFault::NotATable);
        }
        Ok(Table { names: *names })
    }
}

impl Table {
    // The name of a vector; usable vectors have usable names.
    pub fn name(&self, vector: u8) -> u8
        ensures value { result ≡ slice_index self.now.names vector }
        ensures usable { is_usable vector ≡ true → is_usable result ≡ true }
    {
        self.names[vector as usize]
    }
}

// Whether each name may stand at its place of a table.
fn is_table(names: &[u8; 256]) -> bool
    ensures value { result ≡ lawful_names names.now }
    ensures law { result ≡ true → IsTable names.now }
{
    names
        .iter()
        .enumerate()
        .all(|(v, &name)| is_lawful(v, name))
}

// Whether place v of a table may hold a name.
fn is_lawful(v: usize, name: u8) -> bool
    requires { v < 256 }
    ensures { result ≡ lawful_at v name }
{
    if v < 16 { name == 0 } else { usable(name) }
}
