ghost use Rattle.std.specs.Prelude.{◌≡◌, ◌<◌, ◌≤◌, ℕ, All, length, OnOk};
ghost use Rattle.std.specs.List.Sorted.{IsStrictlyIncreasing};
ghost use Rattle.sparsity.specs.Chains.{AreChains};
ghost use Rattle.sparsity.specs.Coupled.{has, share_list, is_coupled, row_of};

use crate::chains::Chains;
use crate::lists::Lists;
use fem_fixed::NoMemory;

/// Writes the columns of row i, rising, over what the buffer had.
pub fn gather_row(
    row: &mut Vec<u32>,
    size: u32,
    lists: &Lists,
    chains: &Chains,
    i: u32,
) -> Result<(), NoMemory>
    requires row { i < size }
    requires within { All (All (λ j. j < size)) lists.now }
    requires size { length chains.now.heads.items ≡ size }
    requires chains { AreChains lists.now chains.now.heads.items chains.now.nodes.items (share_list lists.now) }
    ensures { OnOk result (row.new.items ≡ row_of size lists.now i) }
{
    gather(row, lists, chains, i)?;
    sort_unique(row);
    Ok(())
}

/// Writes the columns of a row, in any order and with repeats.
fn gather(row: &mut Vec<u32>, lists: &Lists, chains: &Chains, i: u32) -> Result<(), NoMemory>
    requires row { i < length chains.now.heads.items }
    requires chains { AreChains lists.now chains.now.heads.items chains.now.nodes.items (share_list lists.now) }
    ensures { OnOk result ((d : ℕ) → has row.new.items d ≡ is_coupled lists.now i d) }
{
    row.clear();
    row.push(i)?;
    let mut link = chains.heads[i as usize];
    while link > 0 {
        let node = chains.nodes[link - 1];
        row.extend_from_slice(lists.get(node.list))?;
        link = node.next;
    }
    Ok(())
}

/// Sorts numbers and leaves each once.
fn sort_unique(row: &mut Vec<u32>)
    ensures rises { IsStrictlyIncreasing row.new.items }
    ensures same { (d : ℕ) → has row.new.items d ≡ has row.old.items d }
{
    row.sort_unstable();
    row.dedup();
}
