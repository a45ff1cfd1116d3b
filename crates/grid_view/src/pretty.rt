//! The text of a view of integers.
ghost use Rattle.std.specs.Prelude.{◌≡◌, ◌<◌, ◌++◌, [], map, IfOk, OnOk, nat_lt, if◌then◌else◌, string_bytes};
ghost use Rattle.grid_view.specs.Prelude.{row, row_count, concat_rows, numbers, longest, row_line, width_or_longest, pretty_text};

use crate::view::GridView;
use grid_base::Whole;
use std::alloc::{AllocError, Allocator};

// Returns what comes before the item at an index: nothing before the first, else the separator.
pub(crate) fn separator_before(index: usize, separator: &'static str) -> &'static str
    ensures { result.now ≡ (if nat_lt 0 index then separator.now else []) }
{
    if index > 0 { separator } else { "" }
}

impl<'a, T: Whole> GridView<'a, T> {
    // Returns the length of the longest number of row `r`, which is in range. Each number is written into the text,
    // which is empty before and after.
    fn longest_in_row<B: Allocator>(
        &self,
        text: &mut String<B>,
        r: usize,
    ) -> Result<usize, AllocError>
        requires row { r < row_count self.now.rows }
        requires text { string_bytes text.old ≡ [] }
        ensures text { OnOk result (string_bytes text.new ≡ []) }
        ensures longest { IfOk result (λ len. len ≡ longest (map T.whole (row self.now.rows r))) }
    {
        let (_, cols) = self.size();
        let mut longest = 0;
        for col in 0..cols {
            let number = self.get_unchecked(r, col).to_whole();
            write!(text, "{number}")?;
            longest = longest.max(text.as_str().len());
            text.clear();
        }
        Ok(longest)
    }

    // Returns the length of the longest number. The text is empty before and after.
    fn longest_number<B: Allocator>(&self, text: &mut String<B>) -> Result<usize, AllocError>
        requires { string_bytes text.old ≡ [] }
        ensures text { OnOk result (string_bytes text.new ≡ []) }
        ensures longest { IfOk result
            (λ len. len ≡ longest (concat_rows (numbers T.whole self.now.rows))) }
    {
        let (rows, _) = self.size();
        let mut longest = 0;
        for row in 0..rows {
            longest = longest.max(self.longest_in_row(text, row)?);
        }
        Ok(longest)
    }

    // Returns the width, or else the length of the longest number. The text is empty before and after.
    fn width_or_longest<B: Allocator>(
        &self,
        text: &mut String<B>,
        width: Option<usize>,
    ) -> Result<usize, AllocError>
        requires { string_bytes text.old ≡ [] }
        ensures text { OnOk result (string_bytes text.new ≡ []) }
        ensures width { IfOk result
            (λ found. found ≡ width_or_longest width (numbers T.whole self.now.rows)) }
    {
        match width {
            Some(width) => Ok(width),
            None => self.longest_number(text),
        }
    }

    // Writes the line of row `r`, which is in range, after the text.
    fn push_row_line<B: Allocator>(
        &self,
        text: &mut String<B>,
        r: usize,
        width: usize,
    ) -> Result<(), AllocError>
        requires { r < row_count self.now.rows }
        ensures { OnOk result (string_bytes text.new
            ≡ string_bytes text.old ++ row_line width (map T.whole (row self.now.rows r))) }
    {
        let (_, cols) = self.size();
        text.push_str("    [")?;
        for col in 0..cols {
            let comma = separator_before(col, ",");
            let number = self.get_unchecked(r, col).to_whole();
            write!(text, "{comma} {number:>width$}")?;
        }
        text.push_str("]\n")
    }

    /// Returns the text of the rows, each in a line of its own, each number right-aligned in the width. Without a width
    /// it is the length of the longest number. A longer number is written in full.
    ///
    ///     [[1, 20], [3, 4]]   pretty(alloc, None)   [
    ///                                                   [  1, 20]
    ///                                                   [  3,  4]
    ///                                               ]
    ///     []                  pretty(alloc, None)   []
    ///
    /// There is no line end after the last bracket.
    /// Fails: if allocation fails.
    /// Cost: each number is written once, and without a width once more to be measured.
    pub fn pretty<B: Allocator>(
        &self,
        alloc: B,
        width: Option<usize>,
    ) -> Result<String<B>, AllocError>
        ensures { IfOk result
            (λ text. string_bytes text ≡ pretty_text width (numbers T.whole self.now.rows)) }
    {
        let mut text = String::new(alloc);
        let (rows, _) = self.size();
        if rows == 0 {
            text.push_str("[]")?;
            return Ok(text);
        }
        let width = self.width_or_longest(&mut text, width)?;
        text.push_str("[\n")?;
        for row in 0..rows {
            self.push_row_line(&mut text, row, width)?;
        }
        text.push_str("]")?;
        Ok(text)
    }
}
