// Net memory that holds a net, and what a step does to it.
ghost use Rattle.std.specs.Prelude.{◌≡◌, true, Ok};
ghost use Rattle.words.specs.Bytes.{Bytes};
ghost use Rattle.stepping.specs.Step.{put, get, asking, step};
ghost use Rattle.monitor.specs.Memory.{holds_net, image_in, rules_held, state_held, starts_held};
ghost use Rattle.monitor.specs.Plan.{plan_of, act_in, asked_of, stepped};

use crate::accepted::Accepted;
use crate::act;
use crate::ask::{Grant, Net};
use format::Header;
use net::Capability;
use policy::Act;
use stepping::Answer;

// Net memory that holds a net, and where the rows of each site start. `same_memory` stands with each method: it is about a change, which no ghost
// field can tell.
#[derive(Drop)]
pub struct HeldNet<'a> {
    pub memory: &'a mut [u8],
    pub starts: [u16; 33],
    ghost bytes: { Bytes memory.now },
    ghost holds: { holds_net memory.now ≡ true },
    ghost started: { starts ≡ starts_held memory.now },
}

impl HeldNet<'_> {
    // The net as asking reads it: the image is at the front of memory.
    fn net(&self) -> Net<'_>
        ensures { result.image.bytes.now ≡ image_in self.now.memory.now }
    {
        let bytes: &[u8] = self.memory;
        let end = Header { bytes }.end();
        Net {
            image: Accepted {
                bytes: &bytes[..end],
            },
            starts: &self.starts,
        }
    }

    // One step of a site.
    pub(crate) fn step(&mut self, site: usize) -> Answer
        ensures value { result ≡ (step (rules_held self.old.memory.now) (state_held self.old.memory.now) site).answer }
        ensures memory_after { self.new.memory.now ≡ stepped self.old.memory.now site }
        ensures same_memory { self.new.memory.ghost_name ≡ self.old.memory.ghost_name }
    {
        match self.net().ask(site) {
            Ok(grant) => {
                self.act(&grant);
                Answer::Granted
            }
            Err(answer) => answer,
        }
    }

    // Does what asking found.
    fn act(&mut self, grant: &Grant)
        requires { plan_of (Ok grant.now) ≡ asked_of self.old.memory.now (act_in grant.now).source }
        ensures memory_after { self.new.memory.now ≡ stepped self.old.memory.now (act_in grant.now).source }
        ensures same_memory { self.new.memory.ghost_name ≡ self.old.memory.ghost_name }
    {
        match grant {
            Grant::Put(act) => self.put(act),
            Grant::Get(act, k) => self.get(act, *k),
        }
    }

    // A put: if there is room for its row, the rows of the sites after the target start one later.
    fn put(&mut self, act: &Act)
        requires { put act.now ≡ asked_of self.old.memory.now act.now.source }
        ensures memory_after { self.new.memory.now ≡ stepped self.old.memory.now act.now.source }
        ensures same_memory { self.new.memory.ghost_name ≡ self.old.memory.ghost_name }
    {
        let writes = act::read_put(self.net().image, act);
        act::put(self.memory, act, &writes);
        if writes.place.is_some() {
            words::move_starts::<true>(&mut self.starts, act.target);
        }
    }

    // A take or read of row k: after a take, the rows of the sites after the target start one earlier.
    fn get(&mut self, act: &Act, k: usize)
        requires { get act.now k ≡ asked_of self.old.memory.now act.now.source }
        ensures memory_after { self.new.memory.now ≡ stepped self.old.memory.now act.now.source }
        ensures same_memory { self.new.memory.ghost_name ≡ self.old.memory.ghost_name }
    {
        let source = act::read_get(self.net().image, act, k);
        act::get(self.memory, act, k, source);
        if act.action.does(Capability::Take) {
            words::move_starts::<false>(&mut self.starts, act.target);
        }
    }
}
