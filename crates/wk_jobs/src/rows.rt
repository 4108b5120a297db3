//! What the rows of the tables say: the numbers of pages by their titles, and the jobs.
ghost use Rattle.std.specs.Prelude.{◌≡◌, true, Some, IfOk};
ghost use Rattle.std.specs.HashMap.{get};
ghost use Rattle.std.specs.Option.{IsSome};
ghost use Rattle.wk_text_rules.specs.Decimal.{decimal_number};
ghost use Rattle.wk_text_rules.specs.Titles.{is_normal, title_eq};
ghost use Rattle.wk_table_rules.specs.GoodStore.{has_good_id, has_good_title, is_fan_params};
ghost use Rattle.wk_table_rules.specs.JobTable.{fan_cmd, fan_params, reach_called};
ghost use Rattle.wk_table_laws.specs.EachGood.{EachGood};
ghost use Rattle.wk_good_rows.specs.Params.{is_cursor, is_reach};
ghost use Rattle.wk_wiki_rules.specs.Steps.{fan_of_row};
ghost use Rattle.wk_jobs.specs.Loaded.{AreNumbers};

use crate::fans::FanJob;
use std::alloc::Global;
use std::collections::HashMap;
use std::marker::Model;
use wk_bytes::{Text, decimal};
use wk_good_rows::shown_form;
use wk_memory::Memory;
use wk_page_rules::Reach;
use wk_table_rows::{JobRow, PageRow};
use wk_title::{Title, named};

/// The title of a row, by which its page is found.
#[derive(Drop, PartialEq, Eq, Hash)]
pub struct RowTitle {
    ns: i64,
    key: Text,
}

impl Model for RowTitle {
    ghost use Rattle.wk_text_rules.specs.Titles.{PageTitle};

    ghost Value = { PageTitle };

    ghost view = { λ t. record { ns = t.ns; key = t.key } };

    ghost inverse = { λ t. record { ns = t.ns; key = t.key } };
}

impl RowTitle {
    /// The title with this key in the namespace. The key is shared.
    fn new(ns: i64, key: &Text) -> Result<RowTitle, Memory>
        ensures { IfOk result (λ title. title ≡ record { ns = ns; key = key.now }) }
    {
        let key = key.share()?;
        Ok(RowTitle { ns, key })
    }
}

/// The number of each page, by its title.
pub fn page_numbers(alloc: Global, rows: &[PageRow]) -> Result<HashMap<RowTitle, u32>, Memory>
    requires ids { EachGood has_good_id rows.now }
    requires titles { EachGood has_good_title rows.now }
    ensures { IfOk result (λ numbers. AreNumbers numbers rows.now) }
{
    let mut numbers = HashMap::new(alloc);
    'rows: for row in rows {
        let title = RowTitle::new(row.page_namespace, &row.page_title)?;
        numbers.insert(title, row.page_id as u32)?;
    }
    Ok(numbers)
}

/// The number of the page of the row's title, which has one.
pub fn page_of_row(numbers: &HashMap<RowTitle, u32>, row: &JobRow) -> Result<u32, Memory>
    requires { IsSome (get title_eq numbers.now row.now.job_title) }
    ensures { IfOk result (λ page. get title_eq numbers.now row.now.job_title ≡ Some page) }
{
    let title = RowTitle::new(row.job_namespace, &row.job_title)?;
    match numbers.get(&title) {
        Some(page) => Ok(*page),
        None => unreachable!(),
    }
}

/// The title of the row, which a text can name.
fn title_of_row(alloc: Global, row: &JobRow) -> Result<Title, Memory>
    requires { is_normal row.now.job_title ≡ true }
    ensures { IfOk result (λ title. title ≡ row.now.job_title) }
{
    let text = shown_form(alloc, row.job_namespace, row.job_title.as_str())?;
    match named(alloc, text.as_str(), 0)? {
        Some(title) => Ok(title),
        None => unreachable!(),
    }
}

/// How far a fan job reaches, by the word for it.
fn reach_called(word: &str) -> Reach
    requires { is_reach word.now ≡ true }
    ensures { reach_called word.now ≡ Some result }
{
    if word == "text" {
        Reach::Text
    } else {
        Reach::Both
    }
}

/// The cursor that the digits write.
fn cursor_written(number: &str) -> u32
    requires { is_cursor number.now ≡ true }
    ensures { decimal_number number.now ≡ Some result }
{
    match decimal(number.as_bytes()) {
        Some(cursor) => cursor as u32,
        None => unreachable!(),
    }
}

/// How far a fan job reaches, and its cursor, by the params of its row.
fn fan_params(params: &str) -> (Reach, u32)
    requires { is_fan_params params.now ≡ true }
    ensures { fan_params params.now ≡ Some (record { reach = result.0; cursor = result.1 }) }
{
    match params.split_once(':') {
        Some((word, number)) => (reach_called(word), cursor_written(number)),
        None => unreachable!(),
    }
}

/// The fan job of the row.
pub fn fan_of_row(alloc: Global, row: &JobRow) -> Result<FanJob, Memory>
    requires cmd { row.now.job_cmd ≡ fan_cmd }
    requires title { is_normal row.now.job_title ≡ true }
    requires params { is_fan_params row.now.job_params ≡ true }
    ensures { IfOk result (λ job. fan_of_row row.now ≡ Some job) }
{
    let title = title_of_row(alloc, row)?;
    let (reach, cursor) = fan_params(row.job_params.as_str());
    Ok(FanJob {
        number: row.job_id,
        title,
        reach,
        cursor,
    })
}
