use crate::{Due, FilterViews};
use field_values::{FilterNo, IssueNo, Memory, Moment};
use std::alloc::{AllocError, Global};
use std::process::Abort;
use std::test::Fail;

/// A cell of the plain table.
#[derive(Clone, Copy, PartialEq, Eq)]
struct Plain {
    filter: FilterNo,
    issue: IssueNo,
    holds: bool,
    end: Option<Moment>,
}

impl Plain {
    fn write(&mut self, holds: bool, end: &Option<Moment>) {
        self.holds = holds;
        self.end = *end;
    }

    /// The cell's end, or this one where that comes first.
    fn or_earlier(
        &self,
        least: Option<(Moment, FilterNo, IssueNo)>,
    ) -> Option<(Moment, FilterNo, IssueNo)> {
        let Some(end) = self.end else {
            return least;
        };
        match least {
            Some(other) if other <= (end, self.filter, self.issue) => Some(other),
            _ => Some((end, self.filter, self.issue)),
        }
    }
}

/// The definition as a program: a list of cells, which is searched from its front.
#[derive(Drop)]
struct Table {
    filters: Vec<FilterNo>,
    issues: u32,
    cells: Vec<Plain>,
}

impl Table {
    fn empty(alloc: Global) -> Table {
        Table {
            filters: Vec::new(alloc),
            issues: 0,
            cells: Vec::new(alloc),
        }
    }

    fn add_cell(&mut self, filter: FilterNo, issue: IssueNo) -> Result<(), AllocError> {
        self.cells.push(Plain {
            filter,
            issue,
            holds: false,
            end: None,
        })?;
        Ok(())
    }

    fn add_filter(&mut self, filter: FilterNo) -> Result<(), AllocError> {
        self.filters.push(filter)?;
        for issue in 0..self.issues {
            self.add_cell(filter, IssueNo(issue + 1))?;
        }
        Ok(())
    }

    fn add_issue(&mut self, issue: IssueNo) -> Result<(), AllocError> {
        self.issues = issue.0;
        for at in 0..self.filters.len() {
            if let Some(filter) = self.filters.get(at) {
                let filter = *filter;
                self.add_cell(filter, issue)?;
            }
        }
        Ok(())
    }

    fn remove_filter(&mut self, filter: FilterNo) {
        self.filters.retain(|other| *other != filter);
        self.cells.retain(|cell| cell.filter != filter);
    }

    fn settle(&mut self, filter: FilterNo, issue: IssueNo, holds: bool, end: &Option<Moment>) {
        for cell in &mut self.cells {
            if cell.filter == filter && cell.issue == issue {
                cell.write(holds, end);
            }
        }
    }

    fn holds(&self, filter: FilterNo, issue: IssueNo) -> bool {
        for cell in &self.cells {
            if cell.filter == filter && cell.issue == issue {
                return cell.holds;
            }
        }
        false
    }

    fn next_due(&self) -> Option<(Moment, FilterNo, IssueNo)> {
        let mut least = None;
        for cell in &self.cells {
            least = cell.or_earlier(least);
        }
        least
    }

    fn has_end(&self, due: &Due) -> bool {
        for cell in &self.cells {
            if cell.filter == due.filter && cell.issue == due.issue {
                return cell.end == Some(due.end);
            }
        }
        false
    }

    fn ends(&self) -> usize {
        self.cells.iter().filter(|cell| cell.end.is_some()).count()
    }
}

/// Numbers from a fixed seed.
#[derive(Drop)]
struct Numbers {
    seed: u32,
}

impl Numbers {
    fn next(&mut self) -> u32 {
        self.seed = self
            .seed
            .wrapping_mul(1_664_525)
            .wrapping_add(1_013_904_223);
        self.seed >> 8
    }

    /// None, or one of a few moments.
    fn end(&mut self) -> Option<Moment> {
        if self.next() % 3 == 0 {
            return None;
        }
        Moment::new(u64::from(self.next() % 40))
    }
}

fn add_filter(rt: &impl Abort, views: &mut FilterViews, filter: FilterNo) -> Result<(), Memory> {
    views.reserve_filter()?;
    assert!(rt; !views.is_there(filter));
    views.add_filter(filter);
    Ok(())
}

fn add_issue(rt: &impl Abort, views: &mut FilterViews, issue: IssueNo) -> Result<(), Memory> {
    views.reserve_issue()?;
    assert!(rt; issue.0 > 0);
    assert!(rt; views.issues() == (issue.0 - 1) as usize);
    views.add_issue(issue);
    Ok(())
}

fn remove_filter(rt: &impl Abort, views: &mut FilterViews, filter: FilterNo) {
    assert!(rt; views.is_there(filter));
    views.remove_filter(filter);
}

fn settle(
    rt: &impl Abort,
    views: &mut FilterViews,
    filter: FilterNo,
    issue: IssueNo,
    holds: bool,
    end: &Option<Moment>,
) {
    assert!(rt; views.is_there(filter));
    assert!(rt; issue.0 > 0 && issue.0 as usize <= views.issues());
    views.write(filter, issue, holds, *end);
}

/// Whether each entry comes not before its parent.
fn is_heap(heap: &[Due]) -> bool {
    for at in 1..heap.len() {
        if heap[at] < heap[(at - 1) / 2] {
            return false;
        }
    }
    true
}

/// Whether the views read as the table does.
fn same(
    alloc: Global,
    views: &FilterViews,
    table: &Table,
    filter: FilterNo,
) -> Result<bool, Memory> {
    let mut members = Vec::new(alloc);
    let mut expected = Vec::new(alloc);
    members.push(IssueNo(77))?;
    views.members(filter, &mut members)?;
    for issue in 0..table.issues {
        let issue = IssueNo(issue + 1);
        if table.holds(filter, issue) != views.holds(filter, issue) {
            return Ok(false);
        }
        if table.holds(filter, issue) {
            expected.push(issue)?;
        }
    }
    let heap = views.heap();
    let ends = heap.iter().all(|due| table.has_end(due));
    Ok(members == expected && ends && heap.len() == table.ends() && is_heap(heap))
}

/// Makes the call that the numbers name, in both.
fn step(
    rt: &impl Abort,
    views: &mut FilterViews,
    table: &mut Table,
    numbers: &mut Numbers,
) -> Result<(), Memory> {
    let draw = numbers.next() % 64;
    let filter = FilterNo(numbers.next() % 12 + 1);
    let there = views.is_there(filter);
    if draw == 0 && there {
        remove_filter(rt, views, filter);
        table.remove_filter(filter);
    } else if draw < 8 && !there {
        add_filter(rt, views, filter)?;
        table.add_filter(filter)?;
    } else if draw == 8 && table.issues < 24 {
        let issue = IssueNo(table.issues + 1);
        add_issue(rt, views, issue)?;
        table.add_issue(issue)?;
    } else if there && table.issues > 0 {
        let issue = IssueNo(numbers.next() % table.issues + 1);
        let holds = numbers.next() % 2 == 0;
        let end = numbers.end();
        settle(rt, views, filter, issue, holds, &end);
        table.settle(filter, issue, holds, &end);
    }
    Ok(())
}

#[test]
fn reads_as_a_plain_table(rt: HostRuntime) -> Result<(), Fail> {
    let alloc = rt.alloc();
    let mut views = FilterViews::empty(alloc);
    let mut table = Table::empty(alloc);
    let mut numbers = Numbers { seed: 2026 };
    let mut most = 0;
    for call in 0..4000_u32 {
        step(&rt, &mut views, &mut table, &mut numbers)?;
        assert_eq!(rt;
            views.next_due(),
            table.next_due(),
            "the least end after call {call}"
        );
        if call % 8 == 0 {
            let filter = FilterNo(numbers.next() % 13 + 1);
            assert!(rt;
                same(alloc, &views, &table, filter)?,
                "the cells after call {call}"
            );
        }
        most = views.heap().len().max(most);
    }
    assert!(rt; most > 80, "the heap had {most} ends at most");
    Ok(())
}

#[test]
fn ends_of_one_moment_come_by_filter_and_then_by_issue(rt: HostRuntime) -> Result<(), Fail> {
    let mut views = FilterViews::empty(rt.alloc());
    for filter in [7, 2] {
        add_filter(&rt, &mut views, FilterNo(filter))?;
    }
    for issue in [1, 2] {
        add_issue(&rt, &mut views, IssueNo(issue))?;
    }
    assert_eq!(rt; views.next_due(), None);
    let at = Moment::new(5);
    for (filter, issue) in [(7, 1), (2, 2)] {
        settle(&rt, &mut views, FilterNo(filter), IssueNo(issue), true, &at);
    }
    assert_eq!(rt;
        views.next_due(),
        Some((
            Moment::new(5).expect(&rt, "a moment"),
            FilterNo(2),
            IssueNo(2)
        ))
    );
    remove_filter(&rt, &mut views, FilterNo(2));
    assert_eq!(rt;
        views.next_due(),
        Some((
            Moment::new(5).expect(&rt, "a moment"),
            FilterNo(7),
            IssueNo(1)
        ))
    );
    assert!(rt; views.holds(FilterNo(7), IssueNo(1)));
    assert!(rt; !views.holds(FilterNo(2), IssueNo(2)));
    Ok(())
}
