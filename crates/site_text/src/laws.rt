//! Laws of the grammar.

ghost use Rattle.std.specs.Prelude.{◌≡◌, ◌⊎◌, ℕ, List};
ghost use Rattle.rows.specs.Rows.{Row, rows_of};
ghost use Rattle.rows.specs.Text.{rows_text};
ghost use Rattle.site_text.specs.Site.{IsValidSite};
ghost use Rattle.site_text.specs.declared.site.Site.{Site};
ghost use Rattle.site_text.specs.Outcome.{IsFault, IsSite};
ghost use Rattle.site_text.specs.Printed.{printed_rows};

use crate::fault::SiteWhy;

/// Rows have an outcome, and only one. So a fault that the grammar names is what `read_site` answers, and a
/// site that the grammar gives is what it answers, but for want of memory.
pub fn rows_have_one_outcome()
    ensures some { (rows : List Row) → ((row : ℕ) × (why : SiteWhy) × IsFault rows row why)
        ⊎ ((site : Site) × IsSite rows site) }
    ensures fault { (rows : List Row) (row other : ℕ) (why because : SiteWhy)
        → IsFault rows row why
        → IsFault rows other because → (row ≡ other) × (why ≡ because) }
    ensures apart { (rows : List Row) (row : ℕ) (why : SiteWhy) (site : Site)
        → IsFault rows row why → IsSite rows site → ⊥ }
    ensures site { (rows : List Row) (site other : Site) → IsSite rows site → IsSite rows other
        → site ≡ other }
{}

/// The sites that the grammar gives are exactly the valid ones: what it gives is valid, and it gives
/// each valid site for the rows that are printed of it.
pub fn valid_sites_are_those_of_the_grammar()
    ensures valid { (rows : List Row) (site : Site) → IsSite rows site → IsValidSite site }
    ensures given { (site : Site) → IsValidSite site
        → IsSite (rows_of (rows_text (printed_rows site))) site }
{}
