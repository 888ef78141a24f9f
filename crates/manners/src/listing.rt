// The breaches of a line, counted and listed, whatever the line and the list are lent as.
// Relies on lent for the line and the list, rules for the rule that a report breaks. The line is gone through once if the list has room for as many
// breaches as the line can have, or if there is none; else once to count and once to write.
ghost use Rattle.std.specs.Prelude.{◌≡◌, ◌++◌, ◌*◌, ◌≤◌, length, drop};
ghost use Rattle.reports.specs.Altitude.{form_of};
ghost use Rattle.manners.specs.Breaches.{breaches};
ghost use Rattle.manners.specs.Steps.{ListsAll};

use crate::lent::{Element, Taken};
use crate::{MannersRefusal, NotListed, most_in, rules};

impl<'a, L: Element> Taken<'a, L> {
    // How many breaches the line has.
    fn count(&self) -> usize
        ensures { result ≡ length (breaches (form_of self.now.form) (L.words self.now.held.now)) }
    {
        let n = L::count_words(self.held);
        let mut place = 0;
        let mut k = 0;
        // No `for`: each outcome says where the next one begins.
        while place < n {
            let o = L::outcome_at(self.held, place, self.form);
            k += usize::from(rules::found_in(o.what).is_some());
            place = o.after;
        }
        k
    }

    // All breaches of the line into the list, which has room for them. Answers how many there are.
    fn fill(&self, list: &mut [L]) -> usize
        requires { length (breaches (form_of self.now.form) (L.words self.now.held.now)) * L.WIDTH ≤ length list.old }
        ensures all { result ≡ length (breaches (form_of self.now.form) (L.words self.now.held.now)) }
        ensures said { list.new ≡ L.said (breaches (form_of self.now.form) (L.words self.now.held.now)) ++ drop (result * L.WIDTH) list.old }
    {
        let n = L::count_words(self.held);
        let mut place = 0;
        let mut k = 0;
        // No `for`: each outcome says where the next one begins.
        while place < n {
            let o = L::outcome_at(self.held, place, self.form);
            if let Some(rule) = rules::found_in(o.what) {
                L::put(list, k, o.first, rule);
                k += 1;
            }
            place = o.after;
        }
        k
    }

    // The breaches of the line, from the start of the list on. Where the list has room for as many as the line can have, nothing has to be counted
    // first.
    pub fn list(&self, list: &mut [L]) -> Result<usize, NotListed>
        ensures { ListsAll L.WIDTH (breaches (form_of self.now.form) (L.words self.now.held.now)) L.said list.old result list.new }
    {
        let room = list.len() / L::WIDTH;
        if room < most_in(L::count_words(self.held)) {
            let all = self.count();
            if room < all {
                return Err(NotListed::List(MannersRefusal::ListTooSmall, all));
            }
            if all == 0 {
                return Ok(0);
            }
        }
        Ok(self.fill(list))
    }
}
