// A number as the pages write it: a comma before every three digits.
use datasheet::Figures;
use std::fmt;

#[derive(Clone, Copy)]
pub struct Grouped(pub u64);

impl fmt::Display for Grouped {
    fn fmt<W: fmt::Write>(&self, f: &mut fmt::Formatter<W>) -> fmt::Result {
        // twenty digits at most, the last three first
        let mut groups = [0u64; 7];
        let mut left = self.0;
        for group in groups.iter_mut() {
            *group = left % 1000;
            left /= 1000;
        }
        let mut said = groups.iter().rev().skip_while(|group| **group == 0);
        write!(f, "{}", said.next().unwrap_or(&0))?;
        for group in said {
            write!(f, ",{group:03}")?;
        }
        Ok(())
    }
}

// The figures of a buffer, in the order of its page.
pub fn in_order(figures: Figures) -> [Grouped; 7] {
    [
        Grouped(figures.room),
        Grouped(figures.certificate),
        Grouped(figures.handle),
        Grouped(figures.body),
        Grouped(figures.short),
        Grouped(figures.extended),
        Grouped(figures.command),
    ]
}
