//! The rules of a good store, and of a good feed, in words.

/// The rule of a good store with this number, in words, and in which order its rows are counted; and behind these rules that of a feed,
/// whose rows are its lines.
pub fn rule_text(rule: u8) -> &'static str {
    match rule {
        1 => "in page, by page_id: page_id is 1, 2, 3 and so on, at most 1000000",
        2 => {
            "in page, by page_id: each title is one that a text can name, isn't in Media or Special, and stands once"
        }
        3 => {
            "in revision, by rev_id: rev_id is 1, 2, 3 and so on, rev_page is a page's, a deletion has no text, rev_len is the text's length, and all texts have at most 2^30 bytes"
        }
        4 => {
            "in page and in revision, each by its number: page_latest and page_len are those of the page's last revision, 0 where it is a deletion, rev_parent_id is the page's revision before, and each page has one"
        }
        5 => {
            "in pagelinks, templatelinks, existlinks, categorylinks and redirect, one after the other, each by its page and its title: each row is from a page that is there, to a title that a text can name, and stands once"
        }
        6 => {
            "in job, by job_id: job_id rises from 1 on, and the job refreshes a page that is there or fans out from a title, each once"
        }
        7 =>
            "in redirect, and behind it site: the version is 1 or 2, and with 1 there is no redirect",
        8 => {
            "in the feed, by its lines from 1 on: each line is one that serve --feed writes; the rows of a good store of version 2 come first, in the order of its tables and their keys, then the start, and then events, each possible where it stands; and the start is there"
        }
        _ => "no rule that is known",
    }
}
