//! Which rows a page has. Worlds are written as `specs/Pages.antt` says, and rows with shown titles.
ghost use Rattle.std.specs.Prelude.{◌≡◌, codes, ◌∷◌, [], pos, true, false};
ghost use Rattle.wk_page_rules.specs.PageRows.{no_rows, names};
ghost use Rattle.wk_page_rules.specs.declared.Reach.TheVariants.{Text, Both};
ghost use Rattle.wk_view_rules.specs.Rows.{rows};
ghost use Rattle.wk_examples.specs.Pages.{pages, only, page_rows, titled};

/// Links and members: each title once, in title order, and of a category's prefixes the last.
pub fn links_and_members()
    ensures last_prefix { page_rows
        (only (codes "P") (codes "[[Category:X|k]][[Category:x]][[:Category:X]] [[b]]"))
        (titled (pos 0) (codes "P"))
        ≡ record {
          templates = [];
          exists = [];
          links = codes "B" ∷ codes "Category:X" ∷ [];
          members = (codes "Category:X", codes "P", codes "") ∷ [];
          redirect = [];
        } }
    ensures order { page_rows
        (only (codes "P") (codes "[[Talk:a]][[c]][[a]][[File:f]][[:File:f]][[b]][[a|d]][[P]]"))
        (titled (pos 0) (codes "P"))
        ≡ record {
          templates = [];
          exists = [];
          links = codes "A" ∷ codes "B" ∷ codes "C" ∷ codes "P" ∷ codes "Talk:A" ∷ codes "File:F"
              ∷ [];
          members = [];
          redirect = [];
        } }
    ensures sort_keys { page_rows
        (only (codes "Talk:P q") (codes "[[Category:Z| k\nl ]][[Category:Y]]"))
        (titled (pos 1) (codes "P_q"))
        ≡ record {
          templates = [];
          exists = [];
          links = [];
          members = (codes "Category:Y", codes "P q", codes "")
              ∷ (codes "Category:Z", codes " kl \nP q", codes " kl ") ∷ [];
          redirect = [];
        } }
    ensures missing { rows (pages []) (titled (pos 0) (codes "P")) ≡ no_rows }
{}

/// Templates, those that are missing among them; titles that are tested for existence, which are links too.
pub fn reads_as_rows()
    ensures missing_template { page_rows (only (codes "P") (codes "{{B}}{{A}}{{B}}{{Special:X}}"))
        (titled (pos 0) (codes "P"))
        ≡ record {
          templates = codes "Template:A" ∷ codes "Template:B" ∷ [];
          exists = [];
          links = codes "Template:A" ∷ codes "Template:B" ∷ [];
          members = [];
          redirect = [];
        } }
    ensures existence { page_rows
        (only (codes "P") (codes "{{#ifexist:Q|y|[[n]]}}{{#ifexist:Special:X|y|n}}"))
        (titled (pos 0) (codes "P"))
        ≡ record {
          templates = [];
          exists = codes "Q" ∷ [];
          links = codes "N" ∷ codes "Q" ∷ [];
          members = [];
          redirect = [];
        } }
    ensures template_of_a_template { page_rows
        (pages
        ((codes "P", codes "{{A}}") ∷ (codes "Template:A", codes "{{B}}[[Category:K]]")
        ∷ (codes "Template:B", codes "[[l]]") ∷ [])) (titled (pos 0) (codes "P"))
        ≡ record {
          templates = codes "Template:A" ∷ codes "Template:B" ∷ [];
          exists = [];
          links = codes "L" ∷ [];
          members = (codes "Category:K", codes "P", codes "") ∷ [];
          redirect = [];
        } }
{}

/// A redirect's target, and both titles where a page includes the redirect.
pub fn redirects()
    ensures included { page_rows
        (pages
        ((codes "Template:T", codes "t") ∷ (codes "Template:R", codes "#REDIRECT [[Template:T]]")
        ∷ (codes "P", codes "{{R}}") ∷ [])) (titled (pos 0) (codes "P"))
        ≡ record {
          templates = codes "Template:R" ∷ codes "Template:T" ∷ [];
          exists = [];
          links = [];
          members = [];
          redirect = [];
        } }
    ensures viewed { page_rows
        (pages
        ((codes "Template:T", codes "t") ∷ (codes "Template:R", codes "#REDIRECT [[Template:T]]")
        ∷ [])) (titled (pos 10) (codes "R"))
        ≡ record {
          templates = [];
          exists = [];
          links = codes "Template:T" ∷ [];
          members = [];
          redirect = codes "Template:T" ∷ [];
        } }
{}

/// Which titles rows name, where included titles count, and where tested ones count too.
pub fn names()
    ensures text { names
        (rows (only (codes "P") (codes "{{A}}{{#ifexist:Q}}")) (titled (pos 0) (codes "P")))
        (titled (pos 10) (codes "A")) Text ≡ true }
    ensures not_by_text { names
        (rows (only (codes "P") (codes "{{A}}{{#ifexist:Q}}")) (titled (pos 0) (codes "P")))
        (titled (pos 0) (codes "Q")) Text ≡ false }
    ensures both { names
        (rows (only (codes "P") (codes "{{A}}{{#ifexist:Q}}")) (titled (pos 0) (codes "P")))
        (titled (pos 0) (codes "Q")) Both ≡ true }
    ensures other { names
        (rows (only (codes "P") (codes "{{A}}{{#ifexist:Q}}[[b]]")) (titled (pos 0) (codes "P")))
        (titled (pos 0) (codes "B")) Both ≡ false }
{}
