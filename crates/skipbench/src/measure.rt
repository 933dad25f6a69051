// What is timed: the construction of tables, and the extension of packed rows.
ghost use Rattle.std.specs.Prelude.{◌≡◌, ◌/◌, ◌<◌, OnOk, IfOk, MatchResult, fold, length, vec_len};
ghost use Rattle.measuring.specs.Checksum.{element_in};
ghost use Rattle.measuring.specs.Splitmix.{state_after, low_bytes};
ghost use Rattle.skip_lde.specs.Tables.{Built, SumsEntriesOfRows};
ghost use Rattle.skip_lde.specs.Rows.{transmitted, bytes_of_row};

use field_dimensions::over::dimensions_over;
use fields::tower::TowerLevel;
use measuring::checksum::checksum;
use measuring::generator::Generator;
use measuring::timing::{Outcome, Timed};
use skip_dimensions::dimensions::Dimensions;
use skip_lde::lde::CompressedLde;
use std::alloc::{AllocError, Global};

const SEED: u64 = 2024;

// Rows that one call extends.
const ROWS: u32 = 4096;

// Bytes, each the low bits of a number of the generator. Where memory runs out, none is drawn.
fn bytes(source: &mut Generator, heap: Global, count: usize) -> Result<Vec<u8>, AllocError>
    ensures state { MatchResult result (λ _. source.new.state ≡ state_after source.old.state count) (λ _. source.new.state ≡ source.old.state) }
    ensures count { IfOk result (λ v. vec_len v ≡ count) }
    ensures values { IfOk result (λ v. v.items ≡ low_bytes source.old.state count) }
{
    let mut drawn = vec![in heap; 0; count]?;
    source.fill_bytes(drawn.as_mut_slice());
    Ok(drawn)
}

// Room for the table of a domain.
fn table_room<F: TowerLevel + Clone>(
    heap: Global,
    dimensions: Dimensions,
) -> anyhow::Result<Vec<F>> {
    Ok(vec![in heap; F::zero(); dimensions.table_len()]?)
}

// Builds the table of a domain.
fn build<F: TowerLevel>(dimensions: Dimensions, table: &mut [F]) -> anyhow::Result<CompressedLde<F>>
    ensures { OnOk result (Built F.Field.ops F.TowerLevel.level dimensions.log_size dimensions.log_extended table.new) }
{
    Ok(CompressedLde::from_dimensions(dimensions, table)?)
}

// A table, which a repetition builds `count` times.
#[derive(Drop)]
struct Tables<F> {
    dimensions: Dimensions,
    table: Vec<F>,
    count: u32,
    ghost some: { 0 < count },
}

impl<F: TowerLevel> Timed for Tables<F> {
    ghost repeats = { λ s t. Built F.Field.ops F.TowerLevel.level s.dimensions.log_size s.dimensions.log_extended t.table.items × (t.dimensions ≡ s.dimensions) × (t.count ≡ s.count) × (vec_len t.table ≡ vec_len s.table) };

    ghost sum = { λ s _. fold (element_in F.TowerLevel.level) 0 s.table.items };

    fn repeat(&mut self) -> anyhow::Result<()> {
        for _ in 0..self.count {
            build(self.dimensions, self.table.as_mut_slice())?;
        }
        Ok(())
    }

    fn checksum(&self, _so_far: u64) -> u64 {
        checksum(0, self.table.as_slice())
    }

    fn stands_alone(&self) -> bool {
        true
    }

    fn operations(&self) -> u32 {
        self.count
    }
}

// Packed rows, which a repetition extends from the table of a domain.
#[derive(Drop)]
struct Rows<F> {
    lde: CompressedLde<F>,
    table: Vec<F>,
    rows: Vec<u8>,
    out: Vec<F>,
}

impl<F: TowerLevel> Timed for Rows<F> {
    ghost repeats = { λ s t. let d = s.lde.dimensions in SumsEntriesOfRows F.Field.ops (transmitted d.log_size d.log_extended) (bytes_of_row d.log_size) s.table.items s.rows.items (length s.rows.items / bytes_of_row d.log_size) t.out.items × (t.lde ≡ s.lde) × (t.table ≡ s.table) × (t.rows ≡ s.rows) × (vec_len t.out ≡ vec_len s.out) };

    ghost sum = { λ s so_far. fold (element_in F.TowerLevel.level) so_far s.out.items };

    fn repeat(&mut self) -> anyhow::Result<()> {
        self.lde.extend_batch(
            self.table.as_slice(),
            self.rows.as_slice(),
            self.out.as_mut_slice(),
        )?;
        Ok(())
    }

    fn checksum(&self, so_far: u64) -> u64 {
        checksum(so_far, self.out.as_slice())
    }

    fn operations(&self) -> u32 {
        ROWS
    }
}

// Times the construction of a table, `count` times in each repetition.
pub(crate) fn measure_table<F: TowerLevel + Clone>(
    rt: &HostRuntime,
    name: &str,
    log_size: usize,
    log_extended: usize,
    count: u32,
    repetitions: u32,
) -> anyhow::Result<()>
    requires { 0 < count }
{
    let dimensions = dimensions_over::<F>(log_size, log_extended)?;
    let mut tables = Tables {
        dimensions,
        table: table_room::<F>(rt.alloc(), dimensions)?,
        count,
    };
    Outcome::of(&mut tables, rt, repetitions)?.print(rt, name)
}

// Times the extension of packed rows.
pub(crate) fn measure_rows<F: TowerLevel + Clone>(
    rt: &HostRuntime,
    name: &str,
    log_size: usize,
    log_extended: usize,
    repetitions: u32,
) -> anyhow::Result<()> {
    let dimensions = dimensions_over::<F>(log_size, log_extended)?;
    let mut table = table_room::<F>(rt.alloc(), dimensions)?;
    let lde = build(dimensions, table.as_mut_slice())?;
    let count = ROWS as usize;
    let mut source = Generator { state: SEED };
    let rows = bytes(
        &mut source,
        rt.alloc(),
        count.saturating_mul(lde.num_chunks()),
    )?;
    let out = vec![in rt.alloc(); F::zero(); count.saturating_mul(lde.num_transmitted())]?;
    let mut extension = Rows {
        lde,
        table,
        rows,
        out,
    };
    Outcome::of(&mut extension, rt, repetitions)?.print(rt, name)
}
