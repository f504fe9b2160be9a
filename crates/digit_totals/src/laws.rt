//! What the report of a text says.

ghost use Rattle.std.specs.Prelude.{◌≡◌, ℕ, List, true, Ok, Err};
ghost use Rattle.digit_totals.specs.declared.fault.LineFault.{LineFault};
ghost use Rattle.digit_totals.specs.declared.fault.LineFault.TheVariants.{Number, Sum, LongLine};
ghost use Rattle.digit_totals.specs.declared.fault.NumberError.{NumberError};
ghost use Rattle.digit_totals.specs.declared.options.FloatOptions.{FloatOptions};
ghost use Rattle.digit_totals.specs.declared.options.Options.{Options};
ghost use Rattle.digit_totals.specs.declared.totals.FloatTotals.{FloatTotals};
ghost use Rattle.digit_totals.specs.declared.totals.Totals.{Totals};
ghost use Rattle.digit_totals.specs.Floats as Floats;
ghost use Rattle.digit_totals.specs.Meaning.{AreTotals, AreTotalsOf, AreFloatTotalsOf, IsNumberFault, IsSumFault, IsLater, IsLongLine, sum_fits};
ghost use Rattle.digit_totals.specs.Lines.{after_line};
ghost use Rattle.digit_totals.specs.Totals.{report_of, input_report};
ghost use Rattle.digit_totals.specs.Value.{value_of};

/// What the report of a text says: each line has a value, and the totals are the count, the sum,
/// the least and the greatest of all values; or the lines before line `n` have values, and line `n`
/// has none, or with its value the sum leaves 128 bits, or it is too long.
pub fn reports_say()
    ensures totals { (options : Options) (text : List ℕ) (t : Totals) →
        report_of options text ≡ Ok t → AreTotals (value_of options) AreTotalsOf text t }
    ensures number { (options : Options) (text : List ℕ) (n : ℕ) (error : NumberError) →
        report_of options text ≡ Err (Number n error)
        → IsNumberFault (value_of options) text n error }
    ensures sum { (options : Options) (text : List ℕ) (n : ℕ) →
        report_of options text ≡ Err (Sum n) → IsSumFault (value_of options) sum_fits text n }
    ensures long { (options : Options) (text : List ℕ) (n : ℕ) →
        report_of options text ≡ Err (LongLine n) → IsLongLine (value_of options) text n }
{}

/// What the report of floats says of a text: as [`reports_say`], but the sum is the one of floats
/// that are added one after the other, each sum rounded, and it never ends a run.
pub fn float_reports_say()
    ensures totals { (options : FloatOptions) (text : List ℕ) (t : FloatTotals) →
        Floats.report_of options text ≡ Ok t
        → AreTotals (Floats.value_of options) AreFloatTotalsOf text t }
    ensures number { (options : FloatOptions) (text : List ℕ) (n : ℕ) (error : NumberError) →
        Floats.report_of options text ≡ Err (Number n error)
        → IsNumberFault (Floats.value_of options) text n error }
    ensures long { (options : FloatOptions) (text : List ℕ) (n : ℕ) →
        Floats.report_of options text ≡ Err (LongLine n)
        → IsLongLine (Floats.value_of options) text n }
{}

/// What the report of an input says whose first line is a header. Each line after it has a value,
/// and the totals are theirs. Or one of these lines has a fault, which names the line of the input.
pub fn headers_say()
    ensures totals { (options : Options) (text : List ℕ) (t : Totals) → options.header ≡ true
        → input_report options text ≡ Ok t
        → AreTotals (value_of options) AreTotalsOf (after_line text) t }
    ensures fault { (options : Options) (text : List ℕ) (fault : LineFault)
        → options.header ≡ true → input_report options text ≡ Err fault
        → IsLater fault (report_of options (after_line text)) }
    ensures float_totals { (options : FloatOptions) (text : List ℕ) (t : FloatTotals)
        → options.header ≡ true → Floats.input_report options text ≡ Ok t
        → AreTotals (Floats.value_of options) AreFloatTotalsOf (after_line text) t }
    ensures float_fault { (options : FloatOptions) (text : List ℕ) (fault : LineFault)
        → options.header ≡ true → Floats.input_report options text ≡ Err fault
        → IsLater fault (Floats.report_of options (after_line text)) }
{}
