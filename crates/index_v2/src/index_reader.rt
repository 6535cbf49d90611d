//! An opened index: the file of a block that is checked or merged, or the parts that a gateway got by ranges. Opening
//! reads the tables alone; whether all sections agree is told by `whole`, and the other calls agree with what that
//! answers.

ghost use Rattle.std.specs.Prelude.{◌≡◌, ◌⊎◌, ◌+◌, ◌-◌, ◌*◌, ◌^◌, ◌<◌, ◌≤◌, [], length, All, slice_get, MatchResult, IfOk, IfErr, IfSome, Ok, Err, Some, None, option_map};
ghost use Rattle.std.specs.Result.{IsOkAnd};
ghost use Rattle.std.specs.Option.{option_copied};
ghost use Rattle.base.specs.Reading.{Gives};
ghost use Rattle.index_parts.specs.Postings.{IsPostings};
ghost use Rattle.wire_bytes.specs.Fields.{uvarint_at};
ghost use Rattle.wire_bytes.specs.declared.varint.WireRefusal.TheVariants.{Overlong};
ghost use Rattle.index_parts.specs.Placed.{at_place};
ghost use Rattle.index_parts.specs.Rows.{compare_rows, IsPostingsTable};
ghost use Rattle.index_parts.specs.Symbols.{IsSymbols};
ghost use Rattle.index_parts.specs.IndexFile.{Holds, series_unit};
ghost use Rattle.index_parts.specs.Parts.{part_of, file, known, IsPartOf, HoldsSection, HoldsSeries};
ghost use Rattle.index_v2.specs.Held.{opened_in, opened_of, whole_file, IsWhole, IsHeldOf, IsReaderOf, HasList, AreSlicesOf, HoldTables};
ghost use Rattle.index_v2.specs.Opening.{contents_at, opened_at, over_at, postings_section};
ghost use Rattle.index_v2.specs.SeriesLabels.{numbered_at};
ghost use Rattle.index_v2.specs.WholeGiven.{GivesWhole};
ghost use Rattle.index_v2.specs.PostingsLists.{is_row_of, row_of, list_of, postings_of, values_of};
ghost use Rattle.index_parts.specs.RowOrder.{BeginsAt, IsAlone};
ghost use Rattle.std.specs.List.Sorted.{IsStrictlyIncreasing, IsStrictlySortedBy};

use crate::numbered::{lent_series_of, series_of, series_of_file};
use crate::opening::contents_of;
use crate::postings::{list_at, list_of, values_of};
use crate::rows::rows_at;
use crate::symbols::Symbols;
use crate::whole::{whole, whole_lent};
use crate::{IndexParts, IndexRefusal, IndexSeries, IndexSeriesList, LentSeries};
use base::List;
use index_parts::{IndexPart, Rows, Toc};
use label_sets::TextList;
use std::alloc::Global;
use std::marker::Model;
use wire_bytes::NumberList;

/// An opened index, which lends its bytes: a whole file, or parts of one. Of parts it reads everything but the series, which are
/// read from further parts (`series_in`).
#[derive(Drop)]
pub struct IndexReader<'a> {
    /// The whole file, or nothing.
    bytes: &'a [u8],
    toc: Toc,
    symbols: Symbols<'a>,
    rows: Rows<'a>,
    /// Where postings lists are read.
    lists: IndexPart<'a>,
    /// How many bytes the symbols were read from.
    symbols_size: usize,
    /// How many bytes the rows were read from.
    rows_size: usize,
}

impl<'a> Model for IndexReader<'a> {
    ghost use Rattle.std.specs.Prelude.{◌≡◌, ◌⊎◌, ◌+◌, ◌*◌, ◌^◌, ◌<◌, ◌≤◌, [], length};
    ghost use Rattle.base.specs.Grammar.{IsBytes};
    ghost use Rattle.index_parts.specs.Parts.{part_of};
    ghost use Rattle.index_v2.specs.Held.{Held, IsWhole};

    ghost Value = { Held };

    ghost view = { λ r.
        record {
          bytes = r.bytes.now;
          toc = r.toc;
          symbols = r.symbols;
          rows = r.rows;
          lists = part_of r.lists;
          symbols_size = r.symbols_size;
          rows_size = r.rows_size;
        } };

    ghost invariant = { λ r.
        (IsWhole (record {
          bytes = r.bytes.now;
          toc = r.toc;
          symbols = r.symbols;
          rows = r.rows;
          lists = part_of r.lists;
          symbols_size = r.symbols_size;
          rows_size = r.rows_size;
        })
        ⊎ (r.bytes.now ≡ []))
        × IsBytes r.bytes.now
        × (r.lists.begin + length r.lists.bytes.now < 2 ^ 64)
        × (length r.symbols ≤ r.symbols_size)
        × (4 * length r.rows ≤ r.rows_size) };
}

impl<'a> IndexReader<'a> {
    ghost use Rattle.std.specs.Prelude.{List, ℕ};
    ghost use Rattle.index_parts.specs.Opened.{Opened};
    ghost use Rattle.std.specs.List.{Contains, filter};
    ghost use Rattle.base.specs.Grammar.{IsBytes};
    ghost use Rattle.index_parts.specs.IndexFile.{IsOpened, IsSeriesOf, IsIndex, AreNumbersOf, AreValuesOf};
    ghost use Rattle.index_parts.specs.declared.index_series.IndexSeries.{IndexSeries};
    ghost use Rattle.index_parts.specs.declared.postings_row.PostingsRow.{PostingsRow};
    ghost use Rattle.index_parts.specs.declared.refusal.PartRefusal.TheVariants.{Short};
    ghost use Rattle.index_v2.specs.declared.refusal.IndexRefusal.{IndexRefusal};

    /// Reads what an index begins and ends with, its symbols and its postings table.
    pub fn open(alloc: Global, bytes: &'a [u8]) -> Result<IndexReader<'a>, IndexRefusal>
        // What is opened begins and ends as an index, and what does so is opened.
        ensures found { IfOk result (λ reader. (reader.bytes ≡ bytes.now) × IsWhole reader) }
        ensures only { (opened : Opened) → opened.bytes ≡ bytes.now → IsOpened opened
            → IsOkAnd result (λ reader. reader ≡ whole_file opened)
            ⊎ (result ≡ Err IndexRefusal.NoMemory) }

        // The first refusal. One of the header or of the table of contents comes whatever memory there is.
        ensures exact { Gives IndexRefusal.NoMemory opened_of result (opened_at bytes.now) }
        ensures contents { (refusal : IndexRefusal) → contents_at bytes.now ≡ Err refusal
            → result ≡ Err refusal }
        ensures few { IfOk result
            (λ reader. (length reader.symbols ≤ length bytes.now)
            × (4 * length reader.rows ≤ length bytes.now)) }
    {
        IndexReader::read(alloc, bytes)
    }

    #[tactic(auto, unfolding(crate::specs::Opening::opened_at))]
    fn read(alloc: Global, bytes: &'a [u8]) -> Result<IndexReader<'a>, IndexRefusal>
        ensures bytes { IsBytes bytes.now }
        ensures whole { IfOk result IsWhole }
        ensures exact { Gives IndexRefusal.NoMemory opened_of result (opened_at bytes.now) }
        ensures contents { (refusal : IndexRefusal) → contents_at bytes.now ≡ Err refusal
            → result ≡ Err refusal }
    {
        let toc = contents_of(bytes)?;
        let size = bytes.len();
        let file = IndexPart { begin: 0, bytes };
        // The symbols are read last, though their refusal is the first: they are what is wanted next, and still in the caches.
        let rows = rows_at(alloc, file, toc.postings_table);
        let symbols = Symbols::read(alloc, file, toc.symbols)?;
        Ok(IndexReader {
            bytes,
            toc,
            symbols,
            rows: rows?,
            lists: file,
            symbols_size: size,
            rows_size: size,
        })
    }

    /// Reads the symbols and the postings table of parts of an index.
    pub fn over(alloc: Global, parts: IndexParts<'a>) -> Result<IndexReader<'a>, IndexRefusal>
        requires symbols { parts.toc.symbols + length parts.symbols.now < 2 ^ 64 }
        requires table { parts.toc.postings_table + length parts.table.now < 2 ^ 64 }
        requires postings { parts.toc.postings + length parts.postings.now < 2 ^ 64 }

        // Of slices of an opened index it holds what that index has; and where the tables lie within theirs they are read.
        ensures found { (opened : Opened) → IsOpened opened → parts.entry.toc ≡ opened.toc
            → AreSlicesOf parts.entry opened.bytes
            → IfOk result (λ reader. IsHeldOf reader opened) }
        ensures only { (opened : Opened) → IsOpened opened → parts.entry.toc ≡ opened.toc
            → AreSlicesOf parts.entry opened.bytes → HoldTables parts.entry
            → IsOkAnd result (λ reader. IsHeldOf reader opened)
            ⊎ (result ≡ Err IndexRefusal.NoMemory) }

        // Of slices in which the tables lie it reads, or is refused, as `open` of the whole index.
        ensures same { (index : List ℕ) → contents_at index ≡ Ok parts.entry.toc
            → AreSlicesOf parts.entry index → HoldTables parts.entry
            → Gives IndexRefusal.NoMemory (opened_in index) result (opened_at index) }

        // Of slices of any bytes, whose header nobody need have read, the tables stand there, and it holds parts of them.
        ensures stands { (index : List ℕ) → AreSlicesOf parts.entry index
            → IfOk result (λ reader. Holds IsSymbols index parts.entry.toc.symbols reader.symbols
            × Holds IsPostingsTable index parts.entry.toc.postings_table reader.rows
            × IsHeldOf reader (opened_in index reader)) }

        // The first refusal, with its place in the index: nothing stands behind a part.
        ensures exact { Gives IndexRefusal.NoMemory
            (λ reader. reader) result (over_at parts.entry) }
        ensures few { IfOk result
            (λ reader. (length reader.symbols ≤ length parts.entry.symbols.now)
            × (4 * length reader.rows ≤ length parts.entry.table.now)) }
    {
        IndexReader::read_parts(alloc, parts)
    }

    #[tactic(auto, unfolding(crate::specs::Opening::over_at))]
    fn read_parts(alloc: Global, parts: IndexParts<'a>) -> Result<IndexReader<'a>, IndexRefusal>
        requires symbols { parts.toc.symbols + length parts.symbols.now < 2 ^ 64 }
        requires table { parts.toc.postings_table + length parts.table.now < 2 ^ 64 }
        requires postings { parts.toc.postings + length parts.postings.now < 2 ^ 64 }
        ensures found { (opened : Opened) → IsOpened opened → parts.entry.toc ≡ opened.toc
            → AreSlicesOf parts.entry opened.bytes
            → IfOk result (λ reader. IsHeldOf reader opened) }
        ensures stands { (index : List ℕ) → AreSlicesOf parts.entry index
            → IfOk result (λ reader. Holds IsSymbols index parts.entry.toc.symbols reader.symbols
            × Holds IsPostingsTable index parts.entry.toc.postings_table reader.rows
            × IsHeldOf reader (opened_in index reader)) }
        ensures exact { Gives IndexRefusal.NoMemory
            (λ reader. reader) result (over_at parts.entry) }
        ensures few { IfOk result
            (λ reader. (length reader.symbols ≤ length parts.entry.symbols.now)
            × (4 * length reader.rows ≤ length parts.entry.table.now)) }
    {
        let symbols = IndexPart {
            begin: parts.toc.symbols,
            bytes: parts.symbols,
        };
        let table = IndexPart {
            begin: parts.toc.postings_table,
            bytes: parts.table,
        };
        let lists = IndexPart {
            begin: parts.toc.postings,
            bytes: parts.postings,
        };
        let rows = rows_at(alloc, table, table.begin);
        let symbols = Symbols::read(alloc, symbols, symbols.begin)?;
        Ok(IndexReader {
            bytes: &[],
            toc: parts.toc,
            symbols,
            rows: rows?,
            lists,
            symbols_size: parts.symbols.len(),
            rows_size: parts.table.len(),
        })
    }

    /// The text of a symbol number.
    pub fn symbol(&self, number: u32) -> Option<&'a str>
        ensures value { option_copied result ≡ slice_get self.now.symbols number }

        // In an index of a list these are the index's symbols.
        ensures agrees { (index : List ℕ) (list : List IndexSeries) (is : IsIndex index list)
            → IsReaderOf self.now is.opened
            → option_copied result ≡ slice_get is.opened.symbols number }
    {
        self.symbols.get(u64::from(number))
    }

    /// Reads the series of a number, which need not be listed. Where parts of the index are there no series is.
    pub fn series(&self, alloc: Global, number: u32) -> Result<IndexSeries, IndexRefusal>
        // What is read is what stands there, and what stands there is read.
        ensures found { IfOk result
            (λ series. IsSeriesOf self.now.bytes self.now.symbols number series) }
        ensures only { (series : IndexSeries)
            → IsSeriesOf self.now.bytes self.now.symbols number series → (result ≡ Ok series)
            ⊎ (result ≡ Err IndexRefusal.NoMemory) }

        // In an index of a list the series that is listed under the number is read.
        ensures agrees { (list : List IndexSeries) (is : IsIndex self.now.bytes list)
            (series : IndexSeries) → Contains is.listed (number, series) → (result ≡ Ok series)
            ⊎ (result ≡ Err IndexRefusal.NoMemory) }

        // The first refusal.
        ensures exact { Gives IndexRefusal.NoMemory
            (λ series. series) result (numbered_at self.now.bytes self.now.symbols number) }
        ensures absent { self.now.bytes ≡ []
            → (result ≡ Err (IndexRefusal.BadSeries number (Short (series_unit * number))))
            ⊎ (result ≡ Err IndexRefusal.NoMemory) }
        ensures few { IfOk result
            (λ series. 2 * length series.labels + 3 * length series.chunks ≤ length
            self.now.bytes) }
    {
        series_of_file(alloc, self.bytes, &self.symbols, number)
    }

    /// Reads the series of a number in a part of the index that begins at a place.
    pub fn series_in(
        &self,
        alloc: Global,
        part: &[u8],
        at: u64,
        number: u32,
    ) -> Result<IndexSeries, IndexRefusal>
        requires { at ≤ series_unit * number }

        // What is read stands so in each index of which this is a part.
        ensures found { (index : List ℕ)
            → IsPartOf (record { begin = at; bytes = part.now }) index
            → IfOk result (λ series. IsSeriesOf index self.now.symbols number series) }

        // A series that lies within the part is read, or refused, as in the index.
        ensures same { (index : List ℕ)
            → IsPartOf (record { begin = at; bytes = part.now }) index
            → HoldsSeries (record { begin = at; bytes = part.now }) (series_unit * number)
            → Gives IndexRefusal.NoMemory
            (λ series. series) result (numbered_at index self.now.symbols number) }

        // One that does not is not there, unless its length is no number, which is refused as such.
        ensures outside { (HoldsSeries (record { begin = at; bytes = part.now })
            (series_unit * number) → ⊥)
            → (uvarint_at (at_place part.now (series_unit * number - at)) ≡ Err Overlong → ⊥)
            → (result ≡ Err (IndexRefusal.BadSeries number (Short (series_unit * number))))
            ⊎ (result ≡ Err IndexRefusal.NoMemory) }

        // In an index of a list the series that is listed under the number is read, where it lies within the part.
        ensures agrees { (index : List ℕ) (list : List IndexSeries) (is : IsIndex index list)
            → IsReaderOf self.now is.opened
            → IsPartOf (record { begin = at; bytes = part.now }) index
            → HoldsSeries (record { begin = at; bytes = part.now }) (series_unit * number)
            → (series : IndexSeries) → Contains is.listed (number, series) → (result ≡ Ok series)
            ⊎ (result ≡ Err IndexRefusal.NoMemory) }

        // The first refusal, with its place in the index: nothing stands behind the part.
        ensures exact { Gives IndexRefusal.NoMemory
            (λ series. series) result
            (numbered_at (known (record { begin = at; bytes = part.now }))
            self.now.symbols number) }
        ensures few { IfOk result
            (λ series. 2 * length series.labels + 3 * length series.chunks ≤ length part.now) }
    {
        let bytes = IndexPart {
            begin: at,
            bytes: part,
        };
        series_of(alloc, bytes, &self.symbols, number)
    }

    /// Reads the series of a number into the room of another, of which nothing is kept but the memory of its lists: where these
    /// have room enough, none is taken. The labels' texts are lent from the index. Where nothing is read the room is given up.
    ///
    /// A call takes time in proportion to the bytes of its series and to the texts of its labels. Series of a hostile index may
    /// lie within one another: reading all that it lists may then take far more than its length. `whole` refuses such an index.
    #[inline(always)]
    pub fn lent_series(
        &self,
        number: u32,
        room: LentSeries<'a>,
    ) -> Result<LentSeries<'a>, IndexRefusal>
        // What is read is what stands there, and what stands there is read.
        ensures found { IfOk result
            (λ series. IsSeriesOf self.now.bytes self.now.symbols number series) }
        ensures only { (series : IndexSeries)
            → IsSeriesOf self.now.bytes self.now.symbols number series
            → IsOkAnd result (λ found. found ≡ series) ⊎ (result ≡ Err IndexRefusal.NoMemory) }

        // In an index of a list the series that is listed under the number is read.
        ensures agrees { (list : List IndexSeries) (is : IsIndex self.now.bytes list)
            (series : IndexSeries) → Contains is.listed (number, series)
            → IsOkAnd result (λ found. found ≡ series) ⊎ (result ≡ Err IndexRefusal.NoMemory) }

        // The first refusal.
        ensures exact { Gives IndexRefusal.NoMemory
            (λ series. series) result (numbered_at self.now.bytes self.now.symbols number) }
        ensures few { IfOk result
            (λ series. 2 * length series.labels + 3 * length series.chunks ≤ length
            self.now.bytes) }
    {
        lent_series_of(self.bytes, &self.symbols, number, room)
    }

    /// The numbers of the series that are listed under a name and a value; two empty texts ask for all series.
    pub fn postings(
        &self,
        alloc: Global,
        name: &str,
        value: &str,
    ) -> Result<NumberList, IndexRefusal>
        // In an index of a list these are exactly the numbers of its series with this label. Nothing but memory is wanting
        // where the reader has the list.
        ensures agrees { (index : List ℕ) (list : List IndexSeries) (is : IsIndex index list)
            → IsReaderOf self.now is.opened
            → IfOk result (λ numbers. AreNumbersOf is.listed name.now value.now numbers) }
        ensures wanting { (index : List ℕ) (list : List IndexSeries) (is : IsIndex index list)
            → HasList self.now is.opened (row_of self.now.rows name.now value.now)
            → IfErr result (λ e. e ≡ IndexRefusal.NoMemory) }

        // They ascend, whatever the index.
        ensures rises { IfOk result IsStrictlyIncreasing }

        // The first refusal.
        ensures exact { Gives IndexRefusal.NoMemory
            (λ numbers. numbers) result (postings_of self.now name.now value.now) }
        ensures few { IfOk result (λ numbers. 4 * length numbers ≤ length self.now.lists.bytes) }

        // Where the lists are read in a part of an index, what is answered is what a reader of the whole index answers.
        ensures found { (opened : Opened) → IsHeldOf self.now opened → IfOk result (λ numbers.
            postings_of (whole_file opened) name.now value.now ≡ Ok numbers) }

        // A list that lies within the part is answered, or refused, as in the index, and any other is not there.
        ensures same { (opened : Opened) → IsHeldOf self.now opened
            → ((row : PostingsRow) → row_of self.now.rows name.now value.now ≡ Some row
            → HoldsSection self.now.lists row.offset)
            → Gives IndexRefusal.NoMemory
            (λ numbers. numbers) result (postings_of (whole_file opened) name.now value.now) }
        ensures outside { (row : PostingsRow) → row_of self.now.rows name.now value.now ≡ Some row
            → (HoldsSection self.now.lists row.offset → ⊥)
            → (result ≡ Err (IndexRefusal.BadSection postings_section (Short row.offset)))
            ⊎ (result ≡ Err IndexRefusal.NoMemory) }
    {
        list_of(alloc, self.lists, &self.rows, name, value)
    }

    /// How many rows the postings table has.
    pub fn row_count(&self) -> usize
        ensures value { result ≡ length self.now.rows }

        // In an index of a list these are the index's rows.
        ensures agrees { (index : List ℕ) (list : List IndexSeries) (is : IsIndex index list)
            → IsReaderOf self.now is.opened → self.now.rows ≡ is.opened.rows }
        ensures small { result < 2 ^ 32 }
        ensures few { 4 * result ≤ self.now.rows_size }
    {
        self.rows.len()
    }

    /// The name, the value and the place of the list of the row at a place. Its texts are lent.
    #[inline(always)]
    pub fn row(&self, place: usize) -> Option<(&'a str, &'a str, u64)>
        ensures { option_map
            (λ row. record { name = row.0.now; value = row.1.now; offset = row.2 }) result
            ≡ slice_get self.now.rows place }
    {
        self.rows.get(place)
    }

    /// The place at which the rows of a name begin, or would begin. The rows ascend, so it is found by halving.
    pub fn first_row(&self, name: &str) -> usize
        ensures begins { BeginsAt self.now.rows name.now result }
        ensures ascending { IsStrictlySortedBy compare_rows self.now.rows }
    {
        self.rows.first_of(name)
    }

    /// The place of the row of a name and a value, if the table has it. The rows ascend, so it is found by halving.
    pub fn find_row(&self, name: &str, value: &str) -> Option<usize>
        // It is the only row of them.
        ensures found { IfSome result (λ place. IsAlone
            (is_row_of name.now value.now) self.now.rows place) }
        ensures absent { result ≡ None → filter (is_row_of name.now value.now) self.now.rows ≡ [] }
    {
        self.rows.place_of(name, value).ok()
    }

    /// The numbers of the series that the row at a place lists.
    pub fn row_numbers(&self, alloc: Global, place: usize) -> Result<NumberList, IndexRefusal>
        requires { place < length self.now.rows }

        // In an index of a list these are exactly the numbers of its series that belong to the row. Nothing but memory is
        // wanting where the reader has the list.
        ensures agrees { (index : List ℕ) (list : List IndexSeries) (is : IsIndex index list)
            → IsReaderOf self.now is.opened
            → (row : PostingsRow) → slice_get self.now.rows place ≡ Some row
            → IfOk result (λ numbers. AreNumbersOf is.listed row.name row.value numbers) }
        ensures wanting { (index : List ℕ) (list : List IndexSeries) (is : IsIndex index list)
            → HasList self.now is.opened (slice_get self.now.rows place)
            → IfErr result (λ e. e ≡ IndexRefusal.NoMemory) }

        // They ascend, whatever the index, and have 32 bits.
        ensures rises { IfOk result IsStrictlyIncreasing }
        ensures small { IfOk result (All (λ n. n < 2 ^ 32)) }

        // The first refusal.
        ensures exact { Gives IndexRefusal.NoMemory
            (λ numbers. numbers) result (list_of self.now.lists (slice_get self.now.rows place)) }
        ensures few { IfOk result (λ numbers. 4 * length numbers ≤ length self.now.lists.bytes) }

        // What is answered stands so in each index of which this is held.
        ensures found { (opened : Opened) → IsHeldOf self.now opened
            → (row : PostingsRow) → slice_get opened.rows place ≡ Some row
            → IfOk result (λ numbers. IsPostings opened.bytes row.offset numbers) }

        // A list that lies where lists are read is answered, or refused, as in the index, and any other is not there.
        ensures same { (opened : Opened) → IsHeldOf self.now opened
            → (row : PostingsRow) → slice_get opened.rows place ≡ Some row
            → HoldsSection self.now.lists row.offset
            → Gives IndexRefusal.NoMemory
            (λ numbers. numbers) result (list_of (file opened.bytes) (Some row)) }
        ensures outside { (row : PostingsRow) → slice_get self.now.rows place ≡ Some row
            → (HoldsSection self.now.lists row.offset → ⊥)
            → (result ≡ Err (IndexRefusal.BadSection postings_section (Short row.offset)))
            ⊎ (result ≡ Err IndexRefusal.NoMemory) }
    {
        let row = self.rows.get(place).unwrap();
        list_at(alloc, self.lists, row.2)
    }

    /// The values that the table lists under a name, ascending.
    pub fn label_values(&self, alloc: Global, name: &str) -> Result<TextList, IndexRefusal>
        // In an index of a list each value that a series has under the name is among them.
        ensures agrees { (index : List ℕ) (list : List IndexSeries) (is : IsIndex index list)
            → IsReaderOf self.now is.opened
            → IfOk result (λ values. AreValuesOf self.now.rows list name.now values) }

        ensures exact { MatchResult result (λ values. values ≡ values_of self.now.rows name.now)
            (λ e. e ≡ IndexRefusal.NoMemory) }
        ensures few { IfOk result (λ values. 4 * length values ≤ self.now.rows_size) }
    {
        Ok(values_of(alloc, &self.rows, name)?)
    }

    /// Reads every series, ascending by labels, and tests that the postings table and its lists are exactly those of the
    /// series.
    ///
    /// Each series stands behind what the one before it holds. So together they have no more labels and chunks than the file has
    /// bytes. The texts of the labels, which the index may hold once for many series, are copied for each.
    pub fn whole(&self, alloc: Global) -> Result<IndexSeriesList, IndexRefusal>
        ensures { GivesWhole self.now result }
    {
        whole(
            alloc,
            self.bytes,
            &self.toc,
            &self.symbols,
            &self.rows,
            self.lists,
        )
    }

    /// Reads every series as `whole` does, with the same tests. The index lends the texts of their labels.
    pub fn whole_lent(&self, alloc: Global) -> Result<List<LentSeries<'a>>, IndexRefusal>
        ensures { GivesWhole self.now result }
    {
        whole_lent(
            alloc,
            self.bytes,
            &self.toc,
            &self.symbols,
            &self.rows,
            self.lists,
        )
    }
}
